// Reads of one record of a variable that was found, into an output from its element 0 on. A refusal writes nothing. Elements `u32` and `u64` keep every
// bit of floats and doubles, a NaN's own too.
ghost use Rattle.cdf.specs.Refusals.{of_result, answered};
ghost use Rattle.cdf.specs.Step.{Leaves};
ghost use Rattle.reads.specs.Reads.{record_from};

use crate::stretch::record_of;
use cdf::refusal::Refusal;
use decode::element::Element;
use decode::strided::records;
use found::variable::Spread;
use reads::window::Window;

pub fn read_record<T: Element>(
    found: Result<Spread, Refusal>,
    window: Window,
    r: u64,
    out: &mut [T],
) -> Result<(), Refusal>
    ensures { Leaves out.old (record_from T.value T.CODE (of_result found) window.entry.bytes.now window.entry.start r out.old) (answered result) out.new }
{
    let x = record_of(T::CODE, found, window, r, out.len())?;
    records(&window.bytes[x.at..], out, x.count, x.chunk, x.stride);
    Ok(())
}
