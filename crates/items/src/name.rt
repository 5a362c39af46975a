// Names of dimensions, attributes and variables.
#![tactic(auto, unfolding(cdf::specs::Step::bind, cdf::specs::Step::test, cdf::specs::Step::unfinished, crate::specs::Name::name, crate::specs::Inner::NameBytes::name_bytes))]

ghost use Rattle.cdf.specs.Inner.Answers.{Passes, Steps};
ghost use Rattle.items.specs.Name.{name};
ghost use Rattle.items.specs.Inner.NameBytes.{name_bytes};

use crate::utf8::is_utf8;
use cdf::padding::parse_zero_padding;
use cdf::place::Place;
use cdf::refusal::{Refusal, Stop};
use cdf::step::Step;
use cdf::word::parse_count;

pub const MAX_NAME: u64 = 256;

// The `count` bytes of a name.
fn parse_name_bytes(place: Place, count: u32) -> Result<Place, Stop>
    ensures { Passes place.entry (name_bytes count) result }
{
    let end = place.skip(count as u64)?;
    if is_utf8(&place.bytes[place.at..end.at]) {
        Ok(end)
    } else {
        Err(place.refuse(Refusal::NotUtf8))
    }
}

// A name: its length word, its bytes, their padding. Answers the number of its bytes, which start
// four bytes after the place.
pub fn parse_name_string(place: Place) -> Step<u16>
    ensures { Steps place.entry (name 4) result }
{
    let (count, bytes) = parse_count(place, MAX_NAME)?;
    let end = parse_name_bytes(bytes, count)?;
    let next = parse_zero_padding(end, count as u64)?;
    Ok((count as u16, next))
}
