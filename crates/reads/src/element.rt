// Reads of one element.
#![tactic(auto, unfolding(crate::specs::Element::element_from, crate::specs::Element::element_from_as, crate::specs::Element::element_of, crate::specs::Inner::Spot::element_spot, cdf::specs::Step::bind, cdf::specs::Step::test), using(crate::proofs::Laws::Element::spot_in))]

ghost use Rattle.std.specs.Prelude.{◌≡◌, ◌+◌, ◌≤◌, length, Some};
ghost use Rattle.bigendian.specs.Number.{be};
ghost use Rattle.cdf.specs.Refusals.{of_result};
ghost use Rattle.items.specs.Types.{size_of};
ghost use Rattle.reads.specs.Element.{value_of, element_of, element_from, element_from_as};

use crate::bounded::Kept;
use crate::kept::{kept, kept_as};
use crate::place::element_spot;
use crate::window::Window;
use cdf::refusal::Refusal;
use decode::element::Element;
use decode::pattern::{f32_of, f64_of};
use found::variable::Spread;
use items::types::DataType;

// A value of the variable's type. A float and a double have their bits beside them: the language has one NaN, so that a NaN's own bits cannot
// pass through the value.
#[derive(Clone, Copy, Debug, PartialEq)]
pub enum Value {
    Byte(i8),
    Char(u8),
    Short(i16),
    Int(i32),
    Float(f32, u32),
    Double(f64, u64),
}

// The value of the type `code` at `at`.
fn value_at(s: &[u8], at: usize, code: u8) -> Value
    requires { (at + size_of code ≤ length s.now) × (1 ≤ code) × (code ≤ 6) }
    ensures { value_of code (be (size_of code) s.now at) ≡ Some result }
{
    match DataType::of_code(code as u64) {
        DataType::I8 => Value::Byte(i8::load(s, at)),
        DataType::U8 => Value::Char(u8::load(s, at)),
        DataType::I16 => Value::Short(i16::load(s, at)),
        DataType::I32 => Value::Int(i32::load(s, at)),
        DataType::F32 => {
            let bits = u32::load(s, at);
            Value::Float(f32_of(bits), bits)
        }
        DataType::F64 => {
            let bits = u64::load(s, at);
            Value::Double(f64_of(bits), bits)
        }
    }
}

// Element `e` of record `r` of a variable that is kept.
fn element_of(kept: Kept, window: Window, r: u64, e: u64) -> Result<Value, Refusal>
    ensures { of_result result ≡ element_of window.entry.bytes.now window.entry.start r e kept.spread }
{
    let at = element_spot(kept, window, r, e)?;
    Ok(value_at(window.bytes, at, kept.spread.code))
}

// Element `e` of record `r` of what was found, whatever its type.
pub fn read_element(
    found: Result<Spread, Refusal>,
    window: Window,
    r: u64,
    e: u64,
) -> Result<Value, Refusal>
    ensures { of_result result ≡ element_from (of_result found) window.entry.bytes.now window.entry.start r e }
{
    element_of(kept(found)?, window, r, e)
}

// The same of a variable that must have the type of `T`: that type's case, or the refusal.
pub fn read_element_as<T: Element>(
    found: Result<Spread, Refusal>,
    window: Window,
    r: u64,
    e: u64,
) -> Result<Value, Refusal>
    ensures { of_result result ≡ element_from_as T.CODE (of_result found) window.entry.bytes.now window.entry.start r e }
{
    element_of(kept_as(T::CODE, found)?, window, r, e)
}
