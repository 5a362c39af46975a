// Whether the names, words and types of a row are in range, where it lies inside the text.
#![tactic(auto, unfolding(cdf::specs::Magic::admits, crate::specs::Inner::Tests::dim_tested, crate::specs::Inner::Tests::attr_tested, crate::specs::Inner::Tests::var_tested))]

ghost use Rattle.std.specs.Prelude.{◌≡◌, ◌+◌, ◌≤◌, length};
ghost use Rattle.bigendian.specs.Number.{half};
ghost use Rattle.cdf.specs.Form.{form};
ghost use Rattle.cdf.specs.Magic.{both_versions, admits};
ghost use Rattle.order.specs.Inner.Tests.{open_tested, code_tested, name_tested, dim_tested, attr_tested, var_tested};

use cdf::word::INDETERMINATE;
use grammar::tables::{Attr, Dim, Var};
use items::types::DataType;
use items::utf8::is_utf8;

// The largest number of bytes of a name.
const MAX_NAME: usize = 256;

// The first number that is no word.
const WORD_END: u64 = 0x8000_0000;

// The first number that is no begin in version 2.
const BEGIN_END: u64 = 0x8000_0000_0000_0000;

// Whether a name is short enough, and UTF-8.
fn name_holds(text: &[u8], at: usize, chars: usize) -> bool
    requires { at + chars ≤ length text.now }
    ensures { result ≡ name_tested text.now at chars }
{
    chars <= MAX_NAME && is_utf8(&text[at..at + chars])
}

// Whether a number is a word, or indeterminate.
pub(crate) fn open_holds(n: u64) -> bool
    ensures { result ≡ open_tested n }
{
    n < WORD_END || n == INDETERMINATE
}

// Whether a type has the code.
fn code_holds(code: u64) -> bool
    ensures { result ≡ code_tested code }
{
    DataType::try_from(code).is_ok()
}

// Whether there is the version.
pub(crate) fn version_holds(version: u8) -> bool
    ensures { result ≡ admits both_versions version }
{
    version == 1 || version == 2
}

// The first number that is no begin in the version.
pub fn begin_end(version: u8) -> u64
    ensures { result ≡ half (form version).begin_bytes }
{
    if version == 1 { WORD_END } else { BEGIN_END }
}

// Whether a dimension is in range.
pub(crate) fn dim_holds(text: &[u8], d: &Dim) -> bool
    requires { d.now.name + d.now.chars ≤ length text.now }
    ensures { result ≡ dim_tested text.now d.now }
{
    name_holds(text, d.name, d.chars as usize) && (d.length as u64) < WORD_END
}

// Whether an attribute is in range.
pub(crate) fn attr_holds(text: &[u8], a: &Attr) -> bool
    requires { a.now.name + a.now.chars ≤ length text.now }
    ensures { result ≡ attr_tested text.now a.now }
{
    name_holds(text, a.name, a.chars as usize)
        && code_holds(a.code as u64)
        && (a.count as u64) < WORD_END
}

// Whether a variable is in range, its ids and attributes aside.
pub(crate) fn var_holds(text: &[u8], v: &Var, version: u8) -> bool
    requires { v.now.name + v.now.chars ≤ length text.now }
    ensures { result ≡ var_tested text.now version v.now }
{
    name_holds(text, v.name, v.chars as usize)
        && code_holds(v.code as u64)
        && open_holds(v.vsize)
        && v.begin < begin_end(version)
}
