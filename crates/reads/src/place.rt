// Where a variable's elements stand in the window.
#![tactic(auto, unfolding(crate::specs::Inner::Spot::element_spot, cdf::specs::Step::test), using(crate::proofs::Laws::Reads::held))]

ghost use Rattle.std.specs.Prelude.{◌≡◌, length};
ghost use Rattle.cdf.specs.Refusals.{of_result};
ghost use Rattle.reads.specs.Inner.Spot.{element_spot};

use crate::bounded::Kept;
use crate::window::Window;
use cdf::refusal::Refusal;

// Element `e` of record `r`.
pub(crate) fn element_spot(kept: Kept, window: Window, r: u64, e: u64) -> Result<usize, Refusal>
    ensures { of_result result ≡ element_spot kept.spread (length window.entry.bytes.now) window.entry.start r e }
{
    let v = kept.spread;
    if v.records <= r {
        return Err(Refusal::NoRecord);
    }
    if v.chunk <= e {
        return Err(Refusal::NoElement);
    }
    let at = v.begin + r * v.step + e * v.width;
    if !window.holds(at, v.width) {
        return Err(Refusal::Window);
    }
    Ok((at - window.start) as usize)
}
