// Attributes, and the list of the global ones.
ghost use Rattle.std.specs.Prelude.{◌≡◌, ◌+◌, ◌≤◌};
ghost use Rattle.cdf.specs.Step.{into};
ghost use Rattle.cdf.specs.Form.{form};
ghost use Rattle.cdf.specs.Inner.Answers.{Fills, Steps};
ghost use Rattle.grammar.specs.Attrs.{attr, attr_list};
ghost use Rattle.grammar.specs.Inner.Parts.{attr_count, attrs, more_attrs, more_globals};

use crate::tables::{Attr, MAX_ATTRS, Tables};
use cdf::list::{ATTRIBUTE_TAG, parse_list_start};
use cdf::place::Place;
use cdf::refusal::Stop;
use cdf::step::Step;
use cdf::word::parse_non_neg;
use items::name::parse_name_string;
use items::types::parse_data_type;
use items::values::parse_typed_data_elements;

#[tactic(auto, unfolding(cdf::specs::Step::bind, crate::specs::Attrs::attr))]
fn parse_attr(place: Place, version: u8) -> Step<Attr>
    ensures { Steps place.entry (attr (form version)) result }
{
    let (chars, type_at) = parse_name_string(place)?;
    let (kind, count_at) = parse_data_type(type_at)?;
    let (count, values) = parse_non_neg(count_at)?;
    let end = parse_typed_data_elements(values, count, kind.size_of())?;
    let attr = Attr {
        name: place.at + 4,
        chars,
        code: kind.code() as u16,
        count,
        values: values.at,
    };
    Ok((attr, end))
}

// How many attributes the list has, where `used` rows are taken.
pub(crate) fn parse_attr_count(place: Place, used: usize) -> Step<u32>
    requires { used ≤ 128 }
    ensures { Steps place.entry (attr_count (form 1) used) result }
{
    parse_list_start(place, ATTRIBUTE_TAG, (MAX_ATTRS - used) as u64)
}

// The `count` attributes from the place on, into the rows after those that are taken.
pub(crate) fn parse_attrs<'a>(
    place: Place<'a>,
    version: u8,
    count: u32,
    tables: &mut Tables,
) -> Result<Place<'a>, Stop>
    requires { tables.old.nattrs + count ≤ 128 }
    ensures { Fills place.entry tables.new (λ s size at. into (more_attrs tables.old) (attrs (form version) count s size at)) result }
{
    let mut at = place;
    for _ in 0..count {
        let (attr, next) = parse_attr(at, version)?;
        tables.push_attr(attr);
        at = next;
    }
    Ok(at)
}

// The list of global attributes, into tables that have none.
#[tactic(auto, unfolding(cdf::specs::Step::bind, cdf::specs::Step::into, crate::specs::Inner::Parts::attrs, crate::specs::Inner::Parts::more_attrs, crate::specs::Inner::Parts::more_globals, crate::specs::Attrs::attr_list))]
pub(crate) fn parse_global_attrs_list<'a>(
    place: Place<'a>,
    version: u8,
    tables: &mut Tables,
) -> Result<Place<'a>, Stop>
    requires { tables.old.nattrs ≡ 0 }
    ensures { Fills place.entry tables.new (λ s size at. into (more_globals tables.old) (attr_list (form version) s size 0 at)) result }
{
    let (count, first) = parse_attr_count(place, 0)?;
    let end = parse_attrs(first, version, count, tables)?;
    tables.globals = tables.nattrs;
    Ok(end)
}
