// The bits of one element, for a caller that makes the value itself.
#![tactic(auto, unfolding(crate::specs::Element::bits_from, crate::specs::Inner::Spot::element_spot, cdf::specs::Step::bind, cdf::specs::Step::test), using(crate::proofs::Laws::Element::spot_in, decode::proofs::Laws::Decoded::byte_at))]

ghost use Rattle.std.specs.Prelude.{◌≡◌, ◌+◌, ◌≤◌, length};
ghost use Rattle.bigendian.specs.Number.{be};
ghost use Rattle.items.specs.Types.{size_of};
ghost use Rattle.cdf.specs.Refusals.{of_result};
ghost use Rattle.reads.specs.Element.{element_with, bits_from};

use crate::bounded::Kept;
use crate::kept::kept;
use crate::place::element_spot;
use crate::window::Window;
use bigendian::number::{be32, be64};
use cdf::refusal::Refusal;
use decode::short::be16;
use found::variable::Spread;
use items::types::DataType;

// The code of a type and the bits of a value of it. A number and no `DataType`: so it crosses to C.
#[derive(Clone, Copy, Debug, PartialEq, Eq, Hash)]
pub struct Bits {
    pub code: u8,
    pub bits: u64,
}

// The bits of a value of the type `code` at `at`.
fn bits_at(s: &[u8], at: usize, code: u8) -> u64
    requires { (at + size_of code ≤ length s.now) × (1 ≤ code) × (code ≤ 6) }
    ensures { result ≡ be (size_of code) s.now at }
{
    match DataType::of_code(code as u64) {
        DataType::I8 | DataType::U8 => u64::from(s[at]),
        DataType::I16 => u64::from(be16(s, at)),
        DataType::I32 | DataType::F32 => u64::from(be32(s, at)),
        DataType::F64 => be64(s, at),
    }
}

// Element `e` of record `r` of a variable that is kept.
fn bits_of(kept: Kept, window: Window, r: u64, e: u64) -> Result<Bits, Refusal>
    ensures { of_result result ≡ element_with (λ code b. record { code = code; bits = b }) window.entry.bytes.now window.entry.start r e kept.spread }
{
    let at = element_spot(kept, window, r, e)?;
    let code = kept.spread.code;
    Ok(Bits {
        code,
        bits: bits_at(window.bytes, at, code),
    })
}

// Element `e` of record `r` of what was found.
pub fn read_bits(
    found: Result<Spread, Refusal>,
    window: Window,
    r: u64,
    e: u64,
) -> Result<Bits, Refusal>
    ensures { of_result result ≡ bits_from (of_result found) window.entry.bytes.now window.entry.start r e }
{
    bits_of(kept(found)?, window, r, e)
}
