// Whether tables can be written.
ghost use Rattle.std.specs.Prelude.{◌≡◌, cond};
ghost use Rattle.order.specs.Writable.{writable};
ghost use Rattle.order.specs.Inner.Rows.{FullRows};
ghost use Rattle.order.specs.Inner.Tests.{counts_tested};
ghost use Rattle.order.specs.Inner.Lengths.{header_length};

use crate::bounded::Bounded;
use crate::rows::{test_attrs, test_dims, test_vars};
use crate::totals::{size_holds, sizes_hold};
use crate::words::{open_holds, version_holds};
use grammar::tables::{MAX_ATTRS, MAX_DIMS, MAX_VARS, Tables};
use model::checked::Checked;
use model::rules::model_holds;

// Whether the counts are within the tables, and there are the version and the count word.
#[tactic(auto, unfolding(crate::specs::Inner::Tests::counts_tested))]
fn counts_hold(t: &Tables) -> bool
    ensures { result ≡ counts_tested t.now }
{
    t.ndims <= MAX_DIMS
        && t.nvars <= MAX_VARS
        && t.nattrs <= MAX_ATTRS
        && t.globals <= t.nattrs
        && version_holds(t.version)
        && open_holds(t.word)
}

// Rule 23 of the writer, for tables of the bytes `text`: the length of their header. What is written of them (`said`) hangs on the lengths of their
// arrays, which a proof knows of a value and not behind a `&`: the caller, who has the value, says them (`FullRows`), and its 7.7 KB are not copied
// once more.
pub fn judged_in_place(text: &[u8], t: &Tables) -> Option<u64>
    requires { FullRows t.now }
    ensures { result ≡ cond (writable text.now t.now) (Some (header_length t.now)) None }
{
    if !counts_hold(t) {
        return None;
    }
    let bounded = Bounded { tables: t };
    let dims = test_dims(text, bounded)?;
    let globals = test_attrs(text, bounded)?;
    let vars = test_vars(text, bounded)?;
    if !model_holds(text, t) {
        return None;
    }
    if !sizes_hold(Checked { tables: t }) {
        return None;
    }
    let length = 8 + (8 + dims) + (8 + globals) + (8 + vars);
    if !size_holds(t, length) {
        return None;
    }
    Some(length)
}

// The same of tables by value.
pub fn judged(text: &[u8], t: Tables) -> Option<u64>
    ensures { result ≡ cond (writable text.now t) (Some (header_length t)) None }
{
    judged_in_place(text, &t)
}
