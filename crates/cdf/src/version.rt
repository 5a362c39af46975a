// The magic word and the version byte.
#![tactic(auto, unfolding(crate::specs::Step::test, crate::specs::Step::unfinished, crate::specs::Magic::magic, crate::specs::Magic::admits, crate::specs::Magic::version_byte))]

ghost use Rattle.std.specs.Prelude.{◌≡◌, ◌==◌, IfOk};
ghost use Rattle.std.specs.List.{list_all, zip};
ghost use Rattle.cdf.specs.Inner.Answers.{Steps, passed};
ghost use Rattle.cdf.specs.Magic.{begins, magic, admits, version_byte};

use crate::place::Place;
use crate::refusal::{Refusal, Stop};
use crate::step::Step;

// The versions that a reader admits.
#[derive(Clone, Copy)]
pub struct Admitted {
    pub classic: bool,
    pub offset64: bool,
}

// Whether neither departs from the other, as far as both go.
fn agree(bytes: &[u8], pattern: &[u8]) -> bool
    ensures { result ≡ list_all (λ x. x.0 == x.1) (zip bytes.now pattern.now) }
{
    // A loop: an adaptor hands out `Option<&T>`, which is laid out otherwise in wasm32.
    for i in 0..bytes.len().min(pattern.len()) {
        if bytes[i] != pattern[i] {
            return false;
        }
    }
    true
}

// Whether the bytes at hand from the place begin `pattern`: none of them departs from it.
pub(crate) fn begins(place: Place, pattern: &[u8]) -> bool
    ensures { result ≡ begins pattern.now place.entry.bytes.now place.entry.at }
{
    agree(&place.bytes[place.at..], pattern)
}

// The three bytes C, D, F at the start.
pub fn parse_magic_word(bytes: &[u8], size: u64) -> Result<Place, Stop>
    ensures { (passed tt result ≡ magic bytes.now size) × IfOk result (λ q. (q.bytes ≡ bytes.entry) × (q.size ≡ size)) }
{
    let start = Place::start(bytes, size);
    if begins(start, b"CDF") {
        start.skip(3)
    } else {
        Err(start.refuse(Refusal::NotCdf))
    }
}

fn admits(admitted: Admitted, version: u8) -> bool
    ensures { result ≡ admits admitted version }
{
    match version {
        1 => admitted.classic,
        2 => admitted.offset64,
        _ => false,
    }
}

// The version byte.
pub fn parse_version(place: Place, admitted: Admitted) -> Step<u8>
    ensures { Steps place.entry (version_byte admitted) result }
{
    let next = place.skip(1)?;
    let version = place.bytes[place.at];
    if admits(admitted, version) {
        Ok((version, next))
    } else {
        Err(place.refuse(Refusal::Version))
    }
}
