// Steps of the grammar, taken at a place of the bytes.
#![tactic(auto, unfolding(crate::specs::Step::test, crate::specs::Step::unfinished))]

ghost use Rattle.std.specs.Prelude.{◌≡◌, cond, ltb};
ghost use Rattle.cdf.specs.Refusals.{number};
ghost use Rattle.cdf.specs.Inner.Answers.{Passes, over};

use crate::place::Place;
use crate::refusal::{Refusal, Stop};

// What was read and the place after it, or the refusal.
pub type Step<'a, T> = Result<(T, Place<'a>), Stop>;

// The refusal where the header goes on past the `have` bytes at hand.
pub fn unfinished(have: usize, size: u64) -> Refusal
    ensures { number result ≡ cond (ltb have size) 1 2 }
{
    if (have as u64) < size {
        Refusal::Unfinished
    } else {
        Refusal::Truncated
    }
}

impl<'a> Place<'a> {
    // The first byte of a file of `size` bytes.
    pub fn start(bytes: &'a [u8], size: u64) -> Place<'a>
        ensures { (result.bytes ≡ bytes.entry) × (result.size ≡ size) × (result.at ≡ 0) }
    {
        Place { bytes, size, at: 0 }
    }

    // The refusal of what stands here.
    pub fn refuse(self, why: Refusal) -> Stop
        ensures { result ≡ record { why = why; place = self.entry.at } }
    {
        Stop {
            why,
            place: self.at,
        }
    }

    // The place `n` bytes on, which may be that after the last byte at hand.
    pub fn skip(self, n: u64) -> Result<Place<'a>, Stop>
        ensures { Passes self.entry (over n) result }
    {
        let have = self.bytes.len();
        let left = (have - self.at) as u64;
        if left < n {
            let why = unfinished(have, self.size);
            return Err(Stop { why, place: have });
        }
        Ok(Place {
            bytes: self.bytes,
            size: self.size,
            at: self.at + n as usize,
        })
    }
}
