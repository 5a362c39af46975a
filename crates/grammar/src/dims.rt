// The list of dimensions.
ghost use Rattle.std.specs.Prelude.{◌≡◌, ◌+◌, ◌≤◌};
ghost use Rattle.cdf.specs.Step.{into};
ghost use Rattle.cdf.specs.Form.{form};
ghost use Rattle.cdf.specs.Inner.Answers.{Fills, Steps};
ghost use Rattle.grammar.specs.Dims.{dim, dim_list};
ghost use Rattle.grammar.specs.Inner.Parts.{dims, more_dims};

use crate::tables::{Dim, MAX_DIMS, Tables};
use cdf::list::{DIMENSION_TAG, parse_list_start};
use cdf::place::Place;
use cdf::refusal::Stop;
use cdf::step::Step;
use cdf::word::parse_non_neg;
use items::name::parse_name_string;

#[tactic(auto, unfolding(cdf::specs::Step::bind, crate::specs::Dims::dim))]
fn parse_dim(place: Place, version: u8) -> Step<Dim>
    ensures { Steps place.entry (dim (form version)) result }
{
    let (chars, length_at) = parse_name_string(place)?;
    let (length, end) = parse_non_neg(length_at)?;
    let dim = Dim {
        name: place.at + 4,
        chars: chars as u32,
        length,
    };
    Ok((dim, end))
}

// The `count` dimensions from the place on, into the rows after those that are taken.
fn parse_dims<'a>(
    place: Place<'a>,
    version: u8,
    count: u32,
    tables: &mut Tables,
) -> Result<Place<'a>, Stop>
    requires { tables.old.ndims + count ≤ 32 }
    ensures { Fills place.entry tables.new (λ s size at. into (more_dims tables.old) (dims (form version) count s size at)) result }
{
    let mut at = place;
    for _ in 0..count {
        let (dim, next) = parse_dim(at, version)?;
        tables.push_dim(dim);
        at = next;
    }
    Ok(at)
}

// The list of dimensions, into tables that have none.
#[tactic(auto, unfolding(cdf::specs::Step::bind, cdf::specs::Step::into, crate::specs::Inner::Parts::dims, crate::specs::Dims::dim_list))]
pub(crate) fn parse_dims_list<'a>(
    place: Place<'a>,
    version: u8,
    tables: &mut Tables,
) -> Result<Place<'a>, Stop>
    requires { tables.old.ndims ≡ 0 }
    ensures { Fills place.entry tables.new (λ s size at. into (more_dims tables.old) (dim_list (form version) s size at)) result }
{
    let (count, first) = parse_list_start(place, DIMENSION_TAG, MAX_DIMS as u64)?;
    parse_dims(first, version, count, tables)
}
