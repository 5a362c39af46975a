// The model rules, as the tables of a header are judged by them.
ghost use Rattle.std.specs.Prelude.{◌≡◌, ◌≤◌};
ghost use Rattle.model.specs.Model.{names_hold, one_unlimited, ids_hold, model_holds};
ghost use Rattle.model.specs.Inner.Rows.{row_ids_hold};
ghost use Rattle.model.specs.Inner.Unlimited.{unlimited};
ghost use Rattle.grammar.specs.Inner.Within.{Within, Shaped};

use crate::names::distinct;
use crate::rows::dims;
use grammar::tables::{Dim, Tables, Var};

fn names_hold(s: &[u8], t: &Tables) -> bool
    requires { Within t.now }
    ensures { result ≡ names_hold s.now t.now }
{
    if !distinct(s, &t.dims[..t.ndims]) {
        return false;
    }
    if !distinct(s, &t.vars[..t.nvars]) {
        return false;
    }
    if !distinct(s, &t.attrs[..t.globals]) {
        return false;
    }
    for v in &t.vars[..t.nvars] {
        let first = v.first as usize;
        if !distinct(s, &t.attrs[first..first + v.attrs as usize]) {
            return false;
        }
    }
    true
}

// The number of the unlimited dimension, or the number of dimensions where there is none.
pub fn unlimited(t: &Tables) -> usize
    requires { t.now.ndims ≤ 32 }
    ensures { result ≡ unlimited t.now }
{
    // A loop: an adaptor hands out `Option<&T>`, which is laid out otherwise in wasm32.
    for i in 0..t.ndims {
        let d = &t.dims[i];
        if d.length == 0 {
            return i;
        }
    }
    t.ndims
}

fn one_unlimited(t: &Tables) -> bool
    requires { t.now.ndims ≤ 32 }
    ensures { result ≡ one_unlimited t.now }
{
    let mut many: usize = 0;
    for d in dims(t) {
        if d.length == 0 {
            many += 1;
        }
    }
    many <= 1
}

// Whether each id of a variable names one of the dimensions, and the unlimited one stands only first.
fn row_ids_hold(dims: &[Dim], v: &Var) -> bool
    requires { v.now.rank ≤ 8 }
    ensures { result ≡ row_ids_hold dims.now v.now }
{
    for k in 0..v.rank as usize {
        let id = v.ids[k] as usize;
        if dims.len() <= id {
            return false;
        }
        let later = 0 < k;
        if later && dims[id].length == 0 {
            return false;
        }
    }
    true
}

// Whether every id names a dimension, and the unlimited dimension stands only first.
pub fn ids_hold(t: &Tables) -> bool
    requires { Shaped t.now }
    ensures { result ≡ ids_hold t.now }
{
    for v in &t.vars[..t.nvars] {
        if !row_ids_hold(&t.dims[..t.ndims], v) {
            return false;
        }
    }
    true
}

// Rule 11.
#[tactic(auto, unfolding(crate::specs::Model::model_holds))]
pub fn model_holds(s: &[u8], t: &Tables) -> bool
    requires { Within t.now }
    ensures { result ≡ model_holds s.now t.now }
{
    names_hold(s, t) && one_unlimited(t) && ids_hold(t)
}
