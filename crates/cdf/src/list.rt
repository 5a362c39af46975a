// How a list starts: absent, or a tag and the number of its items.
#![tactic(auto, unfolding(crate::specs::Step::bind, crate::specs::Step::test, crate::specs::Step::unfinished, crate::specs::Word::word, crate::specs::Word::non_negative, crate::specs::Word::nelems, crate::specs::ListStart::list_start))]

ghost use Rattle.cdf.specs.Inner.Answers.{Steps};
ghost use Rattle.cdf.specs.ListStart.{list_start};

use crate::place::Place;
use crate::refusal::Refusal;
use crate::step::Step;
use crate::version::begins;
use crate::word::parse_count;

pub const DIMENSION_TAG: u8 = 0x0A;

pub const VARIABLE_TAG: u8 = 0x0B;

pub const ATTRIBUTE_TAG: u8 = 0x0C;

// The number of items of the list at the place, for which there is room for `room`.
pub fn parse_list_start(place: Place, tag: u8, room: u64) -> Step<u32>
    ensures { Steps place.entry (list_start 8 4 tag room) result }
{
    if begins(place, &[0; 8]) {
        let next = place.skip(8)?;
        return Ok((0, next));
    }
    if begins(place, &[0, 0, 0, tag]) {
        let count = place.skip(4)?;
        return parse_count(count, room);
    }
    Err(place.refuse(Refusal::ListStart))
}
