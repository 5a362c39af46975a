// The header by its grammar, from the first byte to the last list.
ghost use Rattle.std.specs.Prelude.{◌≡◌};
ghost use Rattle.cdf.specs.Step.{into};
ghost use Rattle.grammar.specs.Inner.Answers.{of_header};
ghost use Rattle.grammar.specs.Grammar.{header};
ghost use Rattle.grammar.specs.Tables.{laid};

use crate::attrs::parse_global_attrs_list;
use crate::dims::parse_dims_list;
use crate::tables::{Tables, started};
use crate::vars::parse_vars_list;
use cdf::refusal::Stop;
use cdf::version::{Admitted, parse_magic_word, parse_version};
use cdf::word::parse_open_count;

// The header by its grammar, from the first byte on: the tables and where it ends.
#[tactic(auto, unfolding(cdf::specs::Step::bind, cdf::specs::Step::into, crate::specs::Grammar::header))]
pub fn parse_header(prefix: &[u8], size: u64, admitted: Admitted) -> Result<(Tables, usize), Stop>
    ensures { of_header result ≡ into laid (header admitted prefix.now size) }
{
    let version_at = parse_magic_word(prefix, size)?;
    let (version, count_at) = parse_version(version_at, admitted)?;
    let (word, dims_at) = parse_open_count(count_at)?;
    let mut tables = started(version, word, size);
    let globals_at = parse_dims_list(dims_at, version, &mut tables)?;
    let vars_at = parse_global_attrs_list(globals_at, version, &mut tables)?;
    let end = parse_vars_list(vars_at, version, &mut tables)?;
    Ok((tables, end.at))
}
