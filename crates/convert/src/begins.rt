// Begins: behind the header, within the form of a version, and moved.
ghost use Rattle.std.specs.Prelude.{◌≡◌, ℕ, ◌+◌, ◌≤◌, ◌<◌, take, ltb, leb};
ghost use Rattle.std.specs.List.{list_all};
ghost use Rattle.grammar.specs.Tables.{var_at};
ghost use Rattle.convert.specs.Convert.{moved, moved_tables};

use grammar::tables::Tables;

// Whether no begin lies below the end of the header.
pub(crate) fn begins_behind(t: &Tables, end: u64) -> bool
    requires { t.now.nvars ≤ 64 }
    ensures { result ≡ list_all (λ v. leb end v.begin) (take t.now.nvars t.now.vars) }
{
    // A loop: an adaptor hands out `Option<&T>`, which is laid out otherwise in wasm32.
    for v in &t.vars[..t.nvars] {
        if v.begin < end {
            return false;
        }
    }
    true
}

// Whether every begin lies below a limit.
pub(crate) fn begins_below(t: &Tables, limit: u64) -> bool
    requires { t.now.nvars ≤ 64 }
    ensures { result ≡ list_all (λ v. ltb v.begin limit) (take t.now.nvars t.now.vars) }
{
    for v in &t.vars[..t.nvars] {
        if limit <= v.begin {
            return false;
        }
    }
    true
}

// A position behind a header that ended at `old` and now ends at `new`.
fn moved(old: u64, new: u64, p: u64) -> u64
    requires { p + new < 18446744073709551616 }
    ensures { result ≡ moved old new p }
{
    if p < old { new } else { p - old + new }
}

// The tables in a version, every begin and the size moved from a header that ends at `old` to one that ends at `new`.
pub(crate) fn moved_tables(t: &Tables, version: u8, old: u64, new: u64) -> Tables
    requires nvars_bound { (t.now.nvars ≤ 64) × (t.now.size + new < 18446744073709551616) }
    requires by_index { (i : ℕ) → i < t.now.nvars → (var_at t.now i).begin + new < 18446744073709551616 }
    ensures { result ≡ moved_tables version (moved old new) t.now }
{
    let mut rows = t.vars;
    for v in &mut rows[..t.nvars] {
        v.begin = moved(old, new, v.begin);
    }
    let mut tables = *t;
    tables.version = version;
    tables.size = moved(old, new, t.size);
    tables.vars = rows;
    tables
}
