// Padding to the next multiple of four bytes.
#![tactic(auto, unfolding(crate::specs::Step::test, crate::specs::Step::unfinished, crate::specs::Padding::zero_padding), using(crate::proofs::Laws::Padding::zeros_part))]

ghost use Rattle.std.specs.Prelude.{◌≡◌, ◌==◌};
ghost use Rattle.std.specs.List.{list_all};
ghost use Rattle.cdf.specs.Inner.Answers.{Passes};
ghost use Rattle.cdf.specs.Padding.{padding, zero_padding};

use crate::place::Place;
use crate::refusal::{Refusal, Stop};

// The number of padding bytes after `count` bytes.
pub fn compute_padding_size(count: u64) -> u64
    ensures { result ≡ padding count }
{
    (4 - count % 4) % 4
}

fn all_zero(bytes: &[u8]) -> bool
    ensures { result ≡ list_all (λ b. b == 0) bytes.now }
{
    // A loop: an adaptor hands out `Option<&T>`, which is laid out otherwise in wasm32.
    for b in bytes {
        if *b != 0 {
            return false;
        }
    }
    true
}

// The zero bytes that fill up `count` bytes before the place.
pub fn parse_zero_padding(place: Place, count: u64) -> Result<Place, Stop>
    ensures { Passes place.entry (zero_padding count) result }
{
    let k = compute_padding_size(count);
    let next = place.skip(k)?;
    if all_zero(&place.bytes[place.at..next.at]) {
        Ok(next)
    } else {
        Err(place.refuse(Refusal::Padding))
    }
}
