// The rows of tables that are in use.
ghost use Rattle.std.specs.Prelude.{◌≡◌, ◌≤◌, length, take};

use grammar::tables::{Attr, Dim, Tables, Var};

// The rows of the dimensions.
pub fn dims(t: &Tables) -> &[Dim]
    requires { t.now.ndims ≤ 32 }
    ensures rows { result.now ≡ take t.now.ndims t.now.dims }
    ensures number { length result.now ≡ t.now.ndims }
{
    let (dims, _) = t.dims.split_at(t.ndims);
    dims
}

// The rows of the attributes, over all lists.
pub fn attrs(t: &Tables) -> &[Attr]
    requires { t.now.nattrs ≤ 128 }
    ensures rows { result.now ≡ take t.now.nattrs t.now.attrs }
    ensures number { length result.now ≡ t.now.nattrs }
{
    let (attrs, _) = t.attrs.split_at(t.nattrs);
    attrs
}

// The rows of the variables.
pub fn vars(t: &Tables) -> &[Var]
    requires { t.now.nvars ≤ 64 }
    ensures rows { result.now ≡ take t.now.nvars t.now.vars }
    ensures number { length result.now ≡ t.now.nvars }
{
    let (vars, _) = t.vars.split_at(t.nvars);
    vars
}
