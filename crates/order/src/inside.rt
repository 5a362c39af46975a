// Whether a row of tables lies inside the tables and their text.
ghost use Rattle.std.specs.Prelude.{◌≡◌};
ghost use Rattle.order.specs.Inner.Tests.{span_inside, attr_row_inside, var_row_inside};

use crate::length::width;
use grammar::tables::{Attr, MAX_RANK, Var};

// Whether the `n` bytes from `at` lie inside the text.
pub(crate) fn is_inside(text: &[u8], at: usize, n: usize) -> bool
    ensures { result ≡ span_inside text.now at n }
{
    at <= text.len() && n <= text.len() - at
}

// Whether an attribute's name and values lie inside the text.
pub(crate) fn attr_inside(text: &[u8], a: &Attr) -> bool
    ensures { result ≡ attr_row_inside text.now a.now }
{
    let bytes = a.count as u64 * width(a.code as u64);
    is_inside(text, a.name, a.chars as usize) && is_inside(text, a.values, bytes as usize)
}

// Whether a variable's name lies inside the text, its ids inside its row and its attributes among `n` rows.
pub(crate) fn var_inside(text: &[u8], v: &Var, n: usize) -> bool
    ensures { result ≡ var_row_inside text.now n v.now }
{
    is_inside(text, v.name, v.chars as usize)
        && v.rank as usize <= MAX_RANK
        && v.first as usize + v.attrs as usize <= n
}
