// Tables are tested before they are read, by each function that is handed any.
ghost use Rattle.std.specs.Prelude.{◌≡◌, cond};
ghost use Rattle.sizes.specs.Records.{record_size};
ghost use Rattle.found.specs.Sought.{shape_holds, tables_hold};
ghost use Rattle.found.specs.Inner.Row.{row_holds};

use grammar::tables::{MAX_DIMS, MAX_RANK, MAX_VARS, Tables, Var};
use items::types::DataType;
use model::rows::vars;
use model::rules::ids_hold;
use sizes::records::{ends_hold, measure};

fn row_holds(v: &Var) -> bool
    ensures { result ≡ row_holds v.now }
{
    v.rank as usize <= MAX_RANK && DataType::try_from(v.code as u64).is_ok()
}

#[tactic(auto, unfolding(crate::specs::Sought::shape_holds))]
fn shape_holds(t: &Tables) -> bool
    ensures { result ≡ shape_holds t.now }
{
    if MAX_DIMS < t.ndims || MAX_VARS < t.nvars {
        return false;
    }
    // A loop: an adaptor hands out `Option<&T>`, which is laid out otherwise in wasm32.
    for v in vars(t) {
        if !row_holds(v) {
            return false;
        }
    }
    true
}

// Rule 23: the record size of tables that may be read.
pub fn tables_hold(t: &Tables) -> Option<u64>
    ensures { result ≡ cond (tables_hold t.now) (Some (record_size t.now)) None }
{
    if !shape_holds(t) {
        return None;
    }
    if !ids_hold(t) {
        return None;
    }
    let z = measure(t)?;
    if !ends_hold(z, t.count) {
        return None;
    }
    Some(z.step)
}
