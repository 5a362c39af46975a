// The bytes of an attribute's values.
#![tactic(auto, unfolding(cdf::specs::Step::test, cdf::specs::Step::unfinished, crate::specs::Values::values))]

ghost use Rattle.std.specs.Prelude.{◌≤◌};
ghost use Rattle.cdf.specs.Inner.Answers.{Passes};
ghost use Rattle.items.specs.Values.{values};

use cdf::padding::parse_zero_padding;
use cdf::place::Place;
use cdf::refusal::Stop;

// The `count` values of `width` bytes each, and their padding.
pub fn parse_typed_data_elements(place: Place, count: u32, width: u64) -> Result<Place, Stop>
    requires { width ≤ 8 }
    ensures { Passes place.entry (values count width) result }
{
    let total = count as u64 * width;
    let end = place.skip(total)?;
    parse_zero_padding(end, total)
}
