// How many bytes of a header a row makes.
ghost use Rattle.std.specs.Prelude.{◌≡◌, ◌≤◌, ◌<◌};
ghost use Rattle.cdf.specs.Form.{form};
ghost use Rattle.items.specs.Types.{size_of};
ghost use Rattle.order.specs.Inner.Lengths.{name_length, attr_length, var_alone};

use cdf::padding::compute_padding_size;
use grammar::tables::{Attr, Var};
use items::types::DataType;

// The bytes of an element of the type of a code; 0 where no type has it.
pub(crate) fn width(code: u64) -> u64
    ensures { (result ≡ size_of code) × (result ≤ 8) }
{
    match DataType::try_from(code) {
        Ok(kind) => kind.size_of(),
        Err(_) => 0,
    }
}

// The bytes of a name of `chars` bytes.
pub fn name_len(chars: u64) -> u64
    requires { chars < 4294967296 }
    ensures { result ≡ name_length chars }
{
    4 + (chars + compute_padding_size(chars))
}

// The bytes of an attribute.
pub fn attr_len(a: Attr) -> u64
    ensures { (result ≡ attr_length a) × (result ≤ 68719476736) }
{
    let bytes = a.count as u64 * width(a.code as u64);
    name_len(a.chars as u64) + 8 + (bytes + compute_padding_size(bytes))
}

// The bytes of a begin.
fn begin_len(version: u8) -> u64
    ensures { (result ≡ (form version).begin_bytes) × (result ≤ 8) }
{
    if version == 1 { 4 } else { 8 }
}

// The bytes of a variable without its attributes.
pub fn var_len(version: u8, v: Var) -> u64
    ensures { (result ≡ var_alone version v) × (result ≤ 8589934592) }
{
    name_len(v.chars as u64) + 4 + 4 * v.rank as u64 + 8 + 8 + begin_len(version)
}
