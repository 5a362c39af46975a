// The length of a header as it is written in a version, of tables that a header was read into.
ghost use Rattle.std.specs.Prelude.{◌≡◌, ℕ, ◌+◌, ◌≤◌, ◌<◌, length, get_or};
ghost use Rattle.grammar.specs.Tables.{no_dim, no_var};
ghost use Rattle.sizes.specs.Records.{total};
ghost use Rattle.order.specs.Inner.Lengths.{dim_length, attrs_length, header_length, CountsHold};
ghost use Rattle.convert.specs.Inner.Read.{var_length, versioned};

use grammar::tables::{Attr, Dim, Tables, Var};
use order::length::{attr_len, name_len, var_len};

// The bytes of dimensions.
fn dims_len(dims: &[Dim]) -> u64
    requires { length dims.now ≤ 32 }
    ensures { (result ≡ total (λ i. dim_length (get_or dims.now i no_dim)) (length dims.now)) × (result ≤ 1099511627776) }
{
    let mut sum = 0;
    for d in dims {
        sum += name_len(d.chars as u64) + 4;
    }
    sum
}

// The bytes of attributes, those of a header or of a variable.
fn attrs_len(attrs: &[Attr]) -> u64
    requires { length attrs.now ≤ 128 }
    ensures { (result ≡ attrs_length attrs.now 0 (length attrs.now)) × (result ≤ 8796093022208) }
{
    let mut sum = 0;
    for a in attrs {
        sum += attr_len(*a);
    }
    sum
}

// The bytes of variables, whose attributes stand among all of the tables.
fn vars_len(vars: &[Var], attrs: &[Attr], version: u8) -> u64
    requires few { length vars.now ≤ 64 }
    requires room { length attrs.now ≤ 128 }
    requires spans { (i : ℕ) → i < length vars.now → (get_or vars.now i no_var).first + (get_or vars.now i no_var).attrs ≤ length attrs.now }
    ensures { (result ≡ total (λ i. var_length version attrs.now (get_or vars.now i no_var)) (length vars.now)) × (result ≤ 1125899906842624) }
{
    let mut sum = 0;
    for v in vars {
        let first = v.first as usize;
        let end = first + v.attrs as usize;
        sum += var_len(version, *v) + attrs_len(&attrs[first..end]);
    }
    sum
}

// The bytes of the header.
pub(crate) fn header_len(t: &Tables, version: u8) -> u64
    requires { CountsHold t.now }
    ensures { (result ≡ header_length (versioned version t.now)) × (result ≤ 2251799813685248) }
{
    let dims = dims_len(&t.dims[..t.ndims]);
    let globals = attrs_len(&t.attrs[..t.globals]);
    let vars = vars_len(&t.vars[..t.nvars], &t.attrs, version);
    8 + (8 + dims) + (8 + globals) + (8 + vars)
}
