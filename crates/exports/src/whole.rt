// All records of a variable that a caller keeps, one behind the other. Floats and doubles by their bits, which is how a caller's are laid out.
ghost use Rattle.cdf.specs.Step.{Leaves};
ghost use Rattle.decode.specs.Decoded.{byte, short, int, raw};
ghost use Rattle.reads.specs.Reads.{whole_from};
ghost use Rattle.exports.specs.Variable.{taken};

use crate::variable::taken;
use cdf::refusal::Refusal;
use decode::element::Element;
use reads::window::Window;
use records::whole::read_whole;

// All records of elements of each type: 0, or the number of the refusal.
fn whole_of<T: Element>(var: &[u64], window: &[u8], start: u64, out: &mut [T]) -> u8
    ensures { Leaves out.old (whole_from T.value T.CODE (taken var.now) window.now start out.old) result out.new }
{
    let window = Window {
        bytes: window,
        start,
    };
    read_whole(taken(var), window, out)
        .err()
        .map_or(0, Refusal::number)
}

pub fn fungal_read_var_i8(var: &[u64], window: &[u8], start: u64, out: &mut [i8]) -> u8
    ensures { Leaves out.old (whole_from byte 1 (taken var.now) window.now start out.old) result out.new }
{
    whole_of(var, window, start, out)
}

pub fn fungal_read_var_u8(var: &[u64], window: &[u8], start: u64, out: &mut [u8]) -> u8
    ensures { Leaves out.old (whole_from raw 2 (taken var.now) window.now start out.old) result out.new }
{
    whole_of(var, window, start, out)
}

pub fn fungal_read_var_i16(var: &[u64], window: &[u8], start: u64, out: &mut [i16]) -> u8
    ensures { Leaves out.old (whole_from short 3 (taken var.now) window.now start out.old) result out.new }
{
    whole_of(var, window, start, out)
}

pub fn fungal_read_var_i32(var: &[u64], window: &[u8], start: u64, out: &mut [i32]) -> u8
    ensures { Leaves out.old (whole_from int 4 (taken var.now) window.now start out.old) result out.new }
{
    whole_of(var, window, start, out)
}

pub fn fungal_read_var_f32(var: &[u64], window: &[u8], start: u64, out: &mut [u32]) -> u8
    ensures { Leaves out.old (whole_from raw 5 (taken var.now) window.now start out.old) result out.new }
{
    whole_of(var, window, start, out)
}

pub fn fungal_read_var_f64(var: &[u64], window: &[u8], start: u64, out: &mut [u64]) -> u8
    ensures { Leaves out.old (whole_from raw 6 (taken var.now) window.now start out.old) result out.new }
{
    whole_of(var, window, start, out)
}
