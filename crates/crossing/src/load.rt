// Numbers taken up as tables, in the layout of store.rt. A number that does not fit its field is refused: no table says it.
ghost use Rattle.std.specs.Prelude.{◌≡◌, ◌&&◌, leb, length};
ghost use Rattle.crossing.specs.Words.{table_length, tables_of, tables_in_fields, Loads};
ghost use Rattle.crossing.specs.Inner.Taken.{when};

use crate::row::load_rows;
use crate::store::WORDS;
use cdf::refusal::Refusal;
use grammar::tables::{Tables, blank};

// The tables that words say, where they are enough and each number fits.
fn taken(words: &[u64]) -> Option<Tables>
    ensures { result ≡ when (leb table_length (length words.now) && tables_in_fields (tables_of words.now)) (tables_of words.now) }
{
    if words.len() < WORDS {
        return None;
    }
    let mut t = blank();
    t.version = u8::try_from(words[0]).ok()?;
    t.word = words[1];
    t.count = words[2];
    t.size = words[3];
    t.ndims = words[4] as usize;
    t.nattrs = words[5] as usize;
    t.globals = words[6] as usize;
    t.nvars = words[7] as usize;
    load_rows(&words[8..104], &mut t.dims)?;
    load_rows(&words[104..744], &mut t.attrs)?;
    load_rows(&words[744..1768], &mut t.vars)?;
    Some(t)
}

// The tables that words say. Every word counts, those of rows past a count too: what was stored is loaded as it was.
pub fn load_tables(words: &[u64]) -> Result<Tables, Refusal>
    ensures { Loads words.now result }
{
    taken(words).ok_or(Refusal::Tables)
}
