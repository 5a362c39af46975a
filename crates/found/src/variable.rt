// The variable that a read asks for, in tables that are tested first.

ghost use Rattle.std.specs.Prelude.{◌≡◌, cond, ◌≤◌};
ghost use Rattle.sizes.specs.Records.{chunk, record_size, max_chunk};
ghost use Rattle.cdf.specs.Refusals.{of_result};
ghost use Rattle.found.specs.Sought.{spread, sought};

use crate::tested::tables_hold;
use cdf::refusal::Refusal;
use grammar::tables::{Tables, Var};
use items::types::DataType;
use sizes::records::{chunk_len, is_record};

// The numbers that a read needs of a variable. Its fields stay open, with no invariant: it crosses to C by words, and a caller may hand in numbers that
// no variable has (23), as theorems and edits do.
#[derive(Clone, Copy, Debug, PartialEq, Eq, Hash)]
pub struct Spread {
    pub begin: u64,
    pub records: u64,
    pub step: u64,
    pub chunk: u64,
    pub width: u64,
    pub code: u8,
}

// How many records a variable has: a fixed one has one.
fn records_of(records: bool, count: u64) -> u64
    ensures { result ≡ cond records count 1 }
{
    if records { count } else { 1 }
}

// The numbers of a row of tables that hold.
fn described(t: &Tables, v: &Var, step: u64) -> Spread
    requires { (v.now.rank ≤ 8) × (1 ≤ v.now.code) × (v.now.code ≤ 6) × (chunk t.now.dims v.now ≤ max_chunk) × (step ≡ record_size t.now) }
    ensures { result ≡ spread t.now v.now }
{
    let kind = DataType::of_code(v.code as u64);
    Spread {
        begin: v.begin,
        records: records_of(is_record(&t.dims, v), t.count),
        step,
        chunk: chunk_len(&t.dims, v),
        width: kind.size_of(),
        code: v.code,
    }
}

// The variable `i`, for reads of it: 23 or 16 where there is none.
pub fn seek(t: &Tables, i: usize) -> Result<Spread, Refusal>
    ensures { of_result result ≡ sought t.now i }
{
    let Some(step) = tables_hold(t) else {
        return Err(Refusal::Tables);
    };
    if t.nvars <= i {
        return Err(Refusal::NoVariable);
    }
    Ok(described(t, &t.vars[i], step))
}
