// Reads of all records of a variable that was found, record k from the element k × chunk of the output on. A refusal writes nothing. Elements `u32` and
// `u64` keep every bit of floats and doubles, a NaN's own too.
ghost use Rattle.cdf.specs.Refusals.{of_result, answered};
ghost use Rattle.cdf.specs.Step.{Leaves};
ghost use Rattle.reads.specs.Reads.{whole_from};

use crate::stretch::whole_of;
use cdf::refusal::Refusal;
use decode::element::Element;
use decode::strided::records;
use found::variable::Spread;
use reads::window::Window;

pub fn read_whole<T: Element>(
    found: Result<Spread, Refusal>,
    window: Window,
    out: &mut [T],
) -> Result<(), Refusal>
    ensures { Leaves out.old (whole_from T.value T.CODE (of_result found) window.entry.bytes.now window.entry.start out.old) (answered result) out.new }
{
    let x = whole_of(T::CODE, found, window, out.len())?;
    records(&window.bytes[x.at..], out, x.count, x.chunk, x.stride);
    Ok(())
}
