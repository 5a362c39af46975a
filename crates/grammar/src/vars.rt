// The list of variables.
ghost use Rattle.std.specs.Prelude.{◌≡◌, ◌+◌, ◌<◌, ◌≤◌, ◌∷◌, [], IfOk};
ghost use Rattle.cdf.specs.Step.{into};
ghost use Rattle.cdf.specs.Form.{form};
ghost use Rattle.cdf.specs.Inner.Answers.{Fills, Steps};
ghost use Rattle.grammar.specs.Tables.{max_rank, padded};
ghost use Rattle.grammar.specs.Inner.Parts.{dimids, vars, more_vars};
ghost use Rattle.grammar.specs.Vars.{var, var_list};

use crate::attrs::{parse_attr_count, parse_attrs};
use crate::tables::{MAX_RANK, MAX_VARS, Tables, Var};
use cdf::list::{VARIABLE_TAG, parse_list_start};
use cdf::place::Place;
use cdf::refusal::Stop;
use cdf::step::Step;
use cdf::word::{parse_count, parse_non_neg, parse_offset, parse_open_count};
use items::name::parse_name_string;
use items::types::parse_data_type;

// The `rank` dimension ids from the place on.
fn parse_dim_ids(place: Place, version: u8, rank: u32) -> Step<[u32; 8]>
    requires { rank ≤ 8 }
    ensures { Steps place.entry (λ s size at. into (padded max_rank 0) (dimids (form version) rank s size at)) result }
{
    let mut ids = [0; 8];
    let mut at = place;
    for i in 0..rank {
        let (id, next) = parse_non_neg(at)?;
        ids[i as usize] = id;
        at = next;
    }
    Ok((ids, at))
}

// A variable, its attributes into the rows after those that are taken.
#[tactic(auto, unfolding(cdf::specs::Step::bind, cdf::specs::Step::into, crate::specs::Inner::Parts::dimids, crate::specs::Inner::Parts::attrs, crate::specs::Attrs::attr_list, crate::specs::Vars::var))]
fn parse_var<'a>(place: Place<'a>, version: u8, tables: &mut Tables) -> Result<Place<'a>, Stop>
    requires { (tables.old.nvars < 64) × (tables.old.nattrs ≤ 128) }
    ensures filled { Fills place.entry tables.new (λ s size at. into (λ v. more_vars tables.old (v ∷ [])) (var (form version) s size tables.old.nattrs at)) result }
    ensures within { IfOk result (λ _. tables.new.nattrs ≤ 128) }
{
    let (chars, rank_at) = parse_name_string(place)?;
    let (rank, ids_at) = parse_count(rank_at, MAX_RANK as u64)?;
    let (ids, attrs_at) = parse_dim_ids(ids_at, version, rank)?;
    let first = tables.nattrs;
    let (attrs, first_at) = parse_attr_count(attrs_at, first)?;
    let type_at = parse_attrs(first_at, version, attrs, tables)?;
    let (kind, vsize_at) = parse_data_type(type_at)?;
    let (vsize, begin_at) = parse_open_count(vsize_at)?;
    let (begin, end) = parse_offset(begin_at, version)?;
    tables.push_var(Var {
        name: place.at + 4,
        chars: chars as u32,
        ids,
        rank: rank as u8,
        first: first as u8,
        attrs: attrs as u8,
        code: kind.code(),
        vsize,
        begin,
    });
    Ok(end)
}

// The `count` variables from the place on, into the rows after those that are taken.
fn parse_vars<'a>(
    place: Place<'a>,
    version: u8,
    count: u32,
    tables: &mut Tables,
) -> Result<Place<'a>, Stop>
    requires { (tables.old.nvars + count ≤ 64) × (tables.old.nattrs ≤ 128) }
    ensures { Fills place.entry tables.new (λ s size at. into (more_vars tables.old) (vars (form version) tables.old.nattrs count s size at)) result }
{
    let mut at = place;
    for _ in 0..count {
        at = parse_var(at, version, tables)?;
    }
    Ok(at)
}

// The list of variables, into tables that have none.
#[tactic(auto, unfolding(cdf::specs::Step::bind, cdf::specs::Step::into, crate::specs::Inner::Parts::vars, crate::specs::Vars::var_list))]
pub(crate) fn parse_vars_list<'a>(
    place: Place<'a>,
    version: u8,
    tables: &mut Tables,
) -> Result<Place<'a>, Stop>
    requires { (tables.old.nvars ≡ 0) × (tables.old.nattrs ≤ 128) }
    ensures { Fills place.entry tables.new (λ s size at. into (more_vars tables.old) (var_list (form version) s size tables.old.nattrs at)) result }
{
    let (count, first) = parse_list_start(place, VARIABLE_TAG, MAX_VARS as u64)?;
    parse_vars(first, version, count, tables)
}
