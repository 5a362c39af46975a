// One record of a variable that a caller keeps, from its element 0 on. Floats and doubles by their bits, which is how a caller's are laid out.
ghost use Rattle.cdf.specs.Step.{Leaves};
ghost use Rattle.decode.specs.Decoded.{byte, short, int, raw};
ghost use Rattle.reads.specs.Reads.{record_from};
ghost use Rattle.exports.specs.Variable.{taken};

use crate::variable::taken;
use cdf::refusal::Refusal;
use decode::element::Element;
use reads::window::Window;
use records::record::read_record;

// A record of elements of each type: 0, or the number of the refusal.
fn record_of<T: Element>(var: &[u64], window: &[u8], start: u64, r: u64, out: &mut [T]) -> u8
    ensures { Leaves out.old (record_from T.value T.CODE (taken var.now) window.now start r out.old) result out.new }
{
    let window = Window {
        bytes: window,
        start,
    };
    read_record(taken(var), window, r, out)
        .err()
        .map_or(0, Refusal::number)
}

pub fn fungal_read_record_i8(var: &[u64], window: &[u8], start: u64, r: u64, out: &mut [i8]) -> u8
    ensures { Leaves out.old (record_from byte 1 (taken var.now) window.now start r out.old) result out.new }
{
    record_of(var, window, start, r, out)
}

pub fn fungal_read_record_u8(var: &[u64], window: &[u8], start: u64, r: u64, out: &mut [u8]) -> u8
    ensures { Leaves out.old (record_from raw 2 (taken var.now) window.now start r out.old) result out.new }
{
    record_of(var, window, start, r, out)
}

pub fn fungal_read_record_i16(var: &[u64], window: &[u8], start: u64, r: u64, out: &mut [i16]) -> u8
    ensures { Leaves out.old (record_from short 3 (taken var.now) window.now start r out.old) result out.new }
{
    record_of(var, window, start, r, out)
}

pub fn fungal_read_record_i32(var: &[u64], window: &[u8], start: u64, r: u64, out: &mut [i32]) -> u8
    ensures { Leaves out.old (record_from int 4 (taken var.now) window.now start r out.old) result out.new }
{
    record_of(var, window, start, r, out)
}

pub fn fungal_read_record_f32(var: &[u64], window: &[u8], start: u64, r: u64, out: &mut [u32]) -> u8
    ensures { Leaves out.old (record_from raw 5 (taken var.now) window.now start r out.old) result out.new }
{
    record_of(var, window, start, r, out)
}

pub fn fungal_read_record_f64(var: &[u64], window: &[u8], start: u64, r: u64, out: &mut [u64]) -> u8
    ensures { Leaves out.old (record_from raw 6 (taken var.now) window.now start r out.old) result out.new }
{
    record_of(var, window, start, r, out)
}
