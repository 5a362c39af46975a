// Floats and doubles by value, for callers in other languages, through byvalue_c: what `bench/` measures beside the reads by bits of `exports`.
// By value every NaN pattern becomes the one NaN, so that each value is tested; by bits none is.
#![tactic(auto)]

ghost use Rattle.cdf.specs.Step.{Leaves, got};
ghost use Rattle.decode.specs.Decoded.{float, double};
ghost use Rattle.reads.specs.Reads.{whole_from};

use cdf::refusal::Refusal;
use decode::element::Element;
use found::variable::Spread;
use reads::window::Window;
use records::whole::read_whole;

// All elements of a fixed variable that has `count` of them from the file's position `begin` on; `window` starts at `start`.
fn values<T: Element>(begin: u64, count: u64, window: &[u8], start: u64, out: &mut [T]) -> u8
    ensures { Leaves out.old (whole_from T.value T.CODE (got (record { begin = begin; records = 1; step = 0; chunk = count; width = T.WIDTH; code = T.CODE }) 0) window.now start out.old) result out.new }
{
    let fixed = Spread {
        begin,
        records: 1,
        step: 0,
        chunk: count,
        width: T::WIDTH as u64,
        code: T::CODE,
    };
    let window = Window {
        bytes: window,
        start,
    };
    read_whole(Ok(fixed), window, out)
        .err()
        .map_or(0, Refusal::number)
}

// Floats.
pub fn fungal_values_f32(begin: u64, count: u64, window: &[u8], start: u64, out: &mut [f32]) -> u8
    ensures { Leaves out.old (whole_from float 5 (got (record { begin = begin; records = 1; step = 0; chunk = count; width = 4; code = 5 }) 0) window.now start out.old) result out.new }
{
    values(begin, count, window, start, out)
}

// Doubles.
pub fn fungal_values_f64(begin: u64, count: u64, window: &[u8], start: u64, out: &mut [f64]) -> u8
    ensures { Leaves out.old (whole_from double 6 (got (record { begin = begin; records = 1; step = 0; chunk = count; width = 8; code = 6 }) 0) window.now start out.old) result out.new }
{
    values(begin, count, window, start, out)
}
