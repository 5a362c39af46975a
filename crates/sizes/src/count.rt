// The record count.
#![tactic(auto, unfolding(cdf::specs::Step::test, crate::specs::Inner::Sizes::divided))]

ghost use Rattle.std.specs.Prelude.{◌≡◌, ℕ, ◌<◌};
ghost use Rattle.cdf.specs.Refusals.{of_result};
ghost use Rattle.cdf.specs.Step.{Step};
ghost use Rattle.sizes.specs.Count.{has_unlimited, count_or, record_count};
ghost use Rattle.sizes.specs.Records.{record_size};
ghost use Rattle.sizes.specs.Inner.Sizes.{divided, or_given, sizes_of};

use crate::records::Sizes;
use cdf::refusal::Refusal;
use cdf::word::INDETERMINATE;
use model::checked::Checked;
use model::rules::unlimited;

// Whether there is an unlimited dimension.
fn has_unlimited(t: Checked) -> bool
    ensures { result ≡ has_unlimited t.entry.tables.now }
{
    unlimited(t.tables) < t.tables.ndims
}

// The count of tables whose record size is `step`, but where it follows from the file's size; with no record variable the record size is 0.
pub fn given(t: Checked, step: u64) -> Option<u64>
    requires { step ≡ record_size t.tables.now }
    ensures { ((x : Step ℕ) → or_given result x ≡ count_or t.entry.tables.now x) × (result ≡ None → 0 < step) }
{
    if !has_unlimited(t) {
        return Some(0);
    }
    let word = t.tables.word;
    if word != INDETERMINATE {
        return Some(word);
    }
    if step == 0 {
        return Some(0);
    }
    None
}

// The count of an open file: the records of `step` bytes from the first begin up to the size.
fn divided(size: u64, first: u64, step: u64) -> Result<u64, Refusal>
    requires { 0 < step }
    ensures { of_result result ≡ divided size first step }
{
    if size < first {
        return Err(Refusal::SizeBelowRecords);
    }
    let rest = size - first;
    if rest % step != 0 {
        return Err(Refusal::Rest);
    }
    let records = rest / step;
    Ok(records)
}

// The record count of tables of the sizes `z`.
pub fn record_count(t: Checked, z: Sizes) -> Result<u64, Refusal>
    requires { z ≡ sizes_of t.tables.now }
    ensures { of_result result ≡ record_count t.entry.tables.now }
{
    match given(t, z.step) {
        Some(n) => Ok(n),
        None => divided(t.tables.size, z.first, z.step),
    }
}
