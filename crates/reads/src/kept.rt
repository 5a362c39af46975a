// A variable that a caller keeps between reads: each read tests its numbers, since a caller may hand in any.
#![tactic(auto, unfolding(crate::specs::Kept::spread_holds, crate::specs::Kept::kept, crate::specs::Kept::kept_as, cdf::specs::Step::bind, cdf::specs::Step::test), using(crate::proofs::Laws::Kept::holds_bounded))]

ghost use Rattle.std.specs.Prelude.{◌≡◌, ◌+◌, ◌<◌, leb};
ghost use Rattle.sizes.specs.Records.{max_position};
ghost use Rattle.reads.specs.Kept.{whole_bytes, spread_holds, kept, kept_as};
ghost use Rattle.cdf.specs.Refusals.{of_result};
ghost use Rattle.reads.specs.Inner.Held.{of_kept};

use crate::bounded::Kept;
use cdf::refusal::Refusal;
use decode::room::product_within;
use found::variable::Spread;
use grammar::tables::MAX_POSITION;
use items::types::DataType;

// Whether no value of the records, of which there are some, ends above 2^62. No sum and no product wraps.
fn ends_within(v: Spread) -> bool
    requires { 0 < v.records }
    ensures { result ≡ leb (v.begin + whole_bytes v) max_position }
{
    if MAX_POSITION < v.begin {
        return false;
    }
    let room = MAX_POSITION - v.begin;
    if !product_within(v.chunk as usize, v.width as usize, room as usize) {
        return false;
    }
    let rest = room - v.chunk * v.width;
    product_within((v.records - 1) as usize, v.step as usize, rest as usize)
}

fn spread_holds(v: Spread) -> bool
    ensures { result ≡ spread_holds v }
{
    if v.code < 1 {
        return false;
    }
    if 6 < v.code {
        return false;
    }
    let kind = DataType::of_code(v.code as u64);
    if v.width != kind.size_of() {
        return false;
    }
    if v.records == 0 {
        return true;
    }
    ends_within(v)
}

// What was found, as a read takes it.
pub(crate) fn kept(found: Result<Spread, Refusal>) -> Result<Kept, Refusal>
    ensures { of_kept result ≡ kept (of_result found) }
{
    let spread = found?;
    if !spread_holds(spread) {
        return Err(Refusal::Tables);
    }
    Ok(Kept { spread })
}

// The same of a variable that must have the type `code`.
pub fn kept_as(code: u8, found: Result<Spread, Refusal>) -> Result<Kept, Refusal>
    ensures { of_kept result ≡ kept_as code (of_result found) }
{
    let v = kept(found)?;
    if v.spread.code != code {
        return Err(Refusal::OtherType);
    }
    Ok(v)
}
