// The records that a read decodes, as places in the window.
#![tactic(auto, unfolding(crate::specs::Inner::Stretch::record_stretch, crate::specs::Inner::Stretch::whole_stretch, crate::specs::Inner::Stretch::record_placed, crate::specs::Inner::Stretch::whole_placed, cdf::specs::Step::bind, cdf::specs::Step::test), using(reads::proofs::Laws::Reads::held, crate::proofs::Laws::Stretch::last_in))]

ghost use Rattle.std.specs.Prelude.{◌≡◌, length};
ghost use Rattle.cdf.specs.Refusals.{of_result};
ghost use Rattle.records.specs.Inner.Stretch.{record_stretch, whole_stretch, record_placed, whole_placed};

use cdf::refusal::Refusal;
use decode::room::product_within;
use found::variable::Spread;
use reads::bounded::Kept;
use reads::kept::kept_as;
use reads::window::Window;

// `count` chunks of `chunk` elements, the first at `at`, one `stride` bytes after the other.
#[derive(Clone, Copy, Debug, PartialEq, Eq, Hash)]
pub struct Stretch {
    pub at: usize,
    pub count: usize,
    pub chunk: usize,
    pub stride: usize,
}

// The chunk of record `r`, for an output of `room` elements.
fn record_stretch(kept: Kept, window: Window, r: u64, room: usize) -> Result<Stretch, Refusal>
    ensures { of_result result ≡ record_stretch kept.spread (length window.entry.bytes.now) window.entry.start r room }
{
    let v = kept.spread;
    if v.records <= r {
        return Err(Refusal::NoRecord);
    }
    let at = v.begin + r * v.step;
    if !window.holds(at, v.chunk * v.width) {
        return Err(Refusal::Window);
    }
    if (room as u64) < v.chunk {
        return Err(Refusal::OutputRoom);
    }
    Ok(Stretch {
        at: (at - window.start) as usize,
        count: 1,
        chunk: v.chunk as usize,
        stride: v.step as usize,
    })
}

// All records, for an output of `room` elements.
fn whole_stretch(kept: Kept, window: Window, room: usize) -> Result<Stretch, Refusal>
    ensures { of_result result ≡ whole_stretch kept.spread (length window.entry.bytes.now) window.entry.start room }
{
    let v = kept.spread;
    let chunk = v.chunk as usize;
    let stride = v.step as usize;
    if v.records == 0 {
        return Ok(Stretch {
            at: 0,
            count: 0,
            chunk,
            stride,
        });
    }
    if !window.holds(v.begin, (v.records - 1) * v.step + v.chunk * v.width) {
        return Err(Refusal::Window);
    }
    let count = v.records as usize;
    if !product_within(count, chunk, room) {
        return Err(Refusal::OutputRoom);
    }
    Ok(Stretch {
        at: (v.begin - window.start) as usize,
        count,
        chunk,
        stride,
    })
}

// The chunk of record `r` of what was found, which must have the type `code`.
pub(crate) fn record_of(
    code: u8,
    found: Result<Spread, Refusal>,
    window: Window,
    r: u64,
    room: usize,
) -> Result<Stretch, Refusal>
    ensures { of_result result ≡ record_placed code (of_result found) (length window.entry.bytes.now) window.entry.start r room }
{
    record_stretch(kept_as(code, found)?, window, r, room)
}

// All records of what was found, which must have the type `code`.
pub(crate) fn whole_of(
    code: u8,
    found: Result<Spread, Refusal>,
    window: Window,
    room: usize,
) -> Result<Stretch, Refusal>
    ensures { of_result result ≡ whole_placed code (of_result found) (length window.entry.bytes.now) window.entry.start room }
{
    whole_stretch(kept_as(code, found)?, window, room)
}
