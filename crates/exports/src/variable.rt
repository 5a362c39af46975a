// A variable that a caller keeps between reads.
#![tactic(auto, unfolding(crate::specs::Variable::placed, crate::specs::Variable::taken, crate::specs::Variable::spread_of, cdf::specs::Step::bind, cdf::specs::Step::test))]

ghost use Rattle.std.specs.Prelude.{◌≡◌};
ghost use Rattle.cdf.specs.Step.{Leaves, bind};
ghost use Rattle.cdf.specs.Refusals.{of_result, answered};
ghost use Rattle.found.specs.Sought.{sought};
ghost use Rattle.exports.specs.Reader.{of_tables};
ghost use Rattle.exports.specs.Variable.{placed, taken};

use cdf::refusal::Refusal;
use crossing::load::load_tables;
use found::variable::{Spread, seek};
use items::types::DataType;

// How many words a variable takes.
const WORDS: usize = 5;

pub fn fungal_variable_words() -> u64
    ensures { result ≡ 5 }
{
    WORDS as u64
}

fn put(v: Spread, out: &mut [u64]) -> Result<(), Refusal>
    ensures { Leaves out.old (placed out.old v) (answered result) out.new }
{
    if out.len() < WORDS {
        return Err(Refusal::OutputRoom);
    }
    out[0] = v.begin;
    out[1] = v.records;
    out[2] = v.step;
    out[3] = v.chunk;
    out[4] = v.code as u64;
    Ok(())
}

fn place(tables: &[u64], i: usize, var: &mut [u64]) -> Result<(), Refusal>
    ensures { Leaves var.old (of_tables tables.now (λ t. bind (sought t i) (λ v _. placed var.old v))) (answered result) var.new }
{
    let t = load_tables(tables)?;
    put(seek(&t, i)?, var)
}

// Finds the variable `i` in the tables and puts down its numbers, for reads of it.
pub fn fungal_place_var(tables: &[u64], i: u64, var: &mut [u64]) -> u8
    ensures { Leaves var.old (of_tables tables.now (λ t. bind (sought t i) (λ v _. placed var.old v))) result var.new }
{
    place(tables, i as usize, var)
        .err()
        .map_or(0, Refusal::number)
}

// The variable that was kept, for a read, which tests it.
pub(crate) fn taken(words: &[u64]) -> Result<Spread, Refusal>
    ensures { of_result result ≡ taken words.now }
{
    if words.len() < WORDS {
        return Err(Refusal::Tables);
    }
    let code = words[4];
    let kind = DataType::try_from(code).map_err(|_| Refusal::Tables)?;
    Ok(Spread {
        begin: words[0],
        records: words[1],
        step: words[2],
        chunk: words[3],
        width: kind.size_of(),
        code: code as u8,
    })
}
