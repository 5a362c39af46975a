// All the rows of tables, tested, and the bytes of a header that they make: both in one pass.
ghost use Rattle.std.specs.Prelude.{◌≡◌, true, cond, ◌≤◌, ◌*◌, ℕ, ◌<◌, ◌+◌, length, IfSome, get_or};
ghost use Rattle.cdf.specs.Below.{all_below};
ghost use Rattle.grammar.specs.Tables.{no_attr};
ghost use Rattle.order.specs.Writable.{attr_inside};
ghost use Rattle.order.specs.Inner.Lengths.{attrs_length, dims_length, vars_length};
ghost use Rattle.order.specs.Inner.Tests.{attrs_tested, attributes_tested, dim_rows_tested, attr_rows_tested, var_rows_tested};

use crate::bounded::Bounded;
use crate::inside::{attr_inside, is_inside, var_inside};
use crate::length::{attr_len, name_len, var_len};
use crate::words::{attr_holds, dim_holds, var_holds};
use grammar::tables::{Attr, MAX_ATTRS};
use model::rows::{attrs, dims, vars};

// The bytes of the dimensions.
pub(crate) fn test_dims(text: &[u8], t: Bounded) -> Option<u64>
    ensures tested { result ≡ cond (dim_rows_tested text.now t.entry.tables.now) (Some (dims_length t.entry.tables.now)) None }
    ensures bound { IfSome result (λ n. n ≤ 1099511627776) }
{
    let mut sum = 0;
    for d in dims(t.tables) {
        if !is_inside(text, d.name, d.chars as usize) {
            return None;
        }
        if !dim_holds(text, d) {
            return None;
        }
        sum += name_len(d.chars as u64) + 4;
    }
    Some(sum)
}

// The bytes of attributes of one list, whose names lie inside the text.
fn test_list(text: &[u8], rows: &[Attr]) -> Option<u64>
    requires few { length rows.now ≤ 128 }
    requires inside { (i : ℕ) → i < length rows.now → (get_or rows.now i no_attr).name + (get_or rows.now i no_attr).chars ≤ length text.now }
    ensures tested { result ≡ cond (attrs_tested text.now rows.now 0 (length rows.now)) (Some (attrs_length rows.now 0 (length rows.now))) None }
    ensures bound { IfSome result (λ n. n ≤ length rows.now * 68719476736) }
{
    let mut sum = 0;
    for a in rows {
        if !attr_holds(text, a) {
            return None;
        }
        sum += attr_len(*a);
    }
    Some(sum)
}

// The bytes of the global attributes; the others lie inside the text too.
pub(crate) fn test_attrs(text: &[u8], bounded: Bounded) -> Option<u64>
    ensures tested { result ≡ cond (attr_rows_tested text.now bounded.entry.tables.now) (Some (attrs_length bounded.entry.tables.now.attrs 0 bounded.entry.tables.now.globals)) None }
    ensures bound { IfSome result (λ n. n ≤ 8796093022208) }
{
    let t = bounded.tables;
    for a in attrs(t) {
        if !attr_inside(text, a) {
            return None;
        }
    }
    test_list(text, &t.attrs[..t.globals])
}

// Whether the attributes over all lists are within the capacity.
fn attributes_hold(t: Bounded) -> bool
    ensures { result ≡ attributes_tested t.entry.tables.now }
{
    let mut count = t.tables.globals;
    for v in vars(t.tables) {
        count += v.attrs as usize;
    }
    count <= MAX_ATTRS
}

// The bytes of the variables, each with its attributes; the attributes lie inside the text.
pub(crate) fn test_vars(text: &[u8], bounded: Bounded) -> Option<u64>
    requires { all_below bounded.tables.now.nattrs (attr_inside text.now bounded.tables.now) ≡ true }
    ensures tested { result ≡ cond (var_rows_tested text.now bounded.entry.tables.now) (Some (vars_length bounded.entry.tables.now)) None }
    ensures bound { IfSome result (λ n. n ≤ 1125899906842624) }
{
    let t = bounded.tables;
    let mut sum = 0;
    for v in vars(t) {
        if !var_inside(text, v, t.nattrs) {
            return None;
        }
        if !var_holds(text, v, t.version) {
            return None;
        }
        let first = v.first as usize;
        let own = test_list(text, &t.attrs[first..first + v.attrs as usize])?;
        sum += var_len(t.version, *v) + own;
    }
    if !attributes_hold(bounded) {
        return None;
    }
    Some(sum)
}
