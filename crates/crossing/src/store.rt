// Tables put down as numbers. The layout, one number a word: the first eight are version, count word, record count, file size, and how many
// dimensions, attributes, global attributes and variables there are. Then every row, those past a count too:
//   from 8, 32 dimensions of 3: the name's place and bytes, the length
//   from 104, 128 attributes of 5: the name's place and bytes, type code, element count, the values' place
//   from 744, 64 variables of 16: the name's place and bytes, how many dimensions, first attribute, how many attributes, type code, vsize,
//   begin, eight ids
ghost use Rattle.cdf.specs.Step.{Leaves};
ghost use Rattle.cdf.specs.Refusals.{answered};
ghost use Rattle.crossing.specs.Words.{stored};

use crate::row::store_rows;
use cdf::refusal::Refusal;
use grammar::tables::Tables;

// How many words tables take.
pub const WORDS: usize = 1768;

// The tables stand in the first words of the output; one that is too short stays as it was.
pub fn store_tables(t: &Tables, out: &mut [u64]) -> Result<(), Refusal>
    ensures { Leaves out.old (stored t.now out.old) (answered result) out.new }
{
    if out.len() < WORDS {
        return Err(Refusal::OutputRoom);
    }
    out[0] = t.version as u64;
    out[1] = t.word;
    out[2] = t.count;
    out[3] = t.size;
    out[4] = t.ndims as u64;
    out[5] = t.nattrs as u64;
    out[6] = t.globals as u64;
    out[7] = t.nvars as u64;
    store_rows(&t.dims, &mut out[8..104]);
    store_rows(&t.attrs, &mut out[104..744]);
    store_rows(&t.vars, &mut out[744..1768]);
    Ok(())
}
