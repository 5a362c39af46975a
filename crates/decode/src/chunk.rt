// The elements of each type.
ghost use Rattle.std.specs.Prelude.{◌≡◌, ◌*◌, length, refl};
ghost use Rattle.bigendian.specs.Lists.{tab};
ghost use Rattle.decode.specs.Decoded.{byte, short, int, float, double, raw};
ghost use Rattle.decode.specs.Inner.Chunks.{of_chunk};

use crate::element::Element;
use crate::pattern::{f32_of, f64_of};
use crate::short::{be16, low16, swap_pairs};
use bigendian::number::{be32, be64, le64};
use items::types::DataType;

// Bytes.
impl Element for i8 {
    ghost value = { byte };

    ghost CODE = { 1 };

    const CODE: u8 = DataType::CODE_I8;

    ghost WIDTH = { 1 };

    const WIDTH: usize = 1;

    ghost sized = { refl };

    fn load(s: &[u8], at: usize) -> i8 {
        s[at].cast_signed()
    }
}

// Chars.
impl Element for u8 {
    ghost value = { raw };

    ghost CODE = { 2 };

    const CODE: u8 = DataType::CODE_U8;

    ghost WIDTH = { 1 };

    const WIDTH: usize = 1;

    ghost sized = { refl };

    fn load(s: &[u8], at: usize) -> u8 {
        s[at]
    }
}

// Shorts.
impl Element for i16 {
    ghost value = { short };

    ghost CODE = { 3 };

    const CODE: u8 = DataType::CODE_I16;

    ghost WIDTH = { 2 };

    const WIDTH: usize = 2;

    ghost sized = { refl };

    fn load(s: &[u8], at: usize) -> i16 {
        be16(s, at).cast_signed()
    }

    // Four a turn: the pairs of a number of eight bytes are swapped all at once. LLVM joins the four stores into one and makes vectors of it
    // for each target; two bytes by themselves make one load on x86-64 alone. Then the last ones, one by one.
    fn decode(src: &[u8], out: &mut [i16]) {
        let n = out.len();
        let fours = n / 4;
        for j in 0..fours {
            let x = swap_pairs(le64(src, 8 * j));
            let q = 4 * j;
            out[q] = low16(x).cast_signed();
            out[q + 1] = low16(x / 0x1_0000).cast_signed();
            out[q + 2] = low16(x / 0x1_0000_0000).cast_signed();
            out[q + 3] = low16(x / 0x1_0000_0000_0000).cast_signed();
        }
        let rest = n % 4;
        // counted from 0, so that LLVM sees that they are three at most, and makes no vectors of them
        for k in 0..rest {
            let i = n - rest + k;
            out[i] = i16::load(src, 2 * i);
        }
    }
}

// Ints.
impl Element for i32 {
    ghost value = { int };

    ghost CODE = { 4 };

    const CODE: u8 = DataType::CODE_I32;

    ghost WIDTH = { 4 };

    const WIDTH: usize = 4;

    ghost sized = { refl };

    fn load(s: &[u8], at: usize) -> i32 {
        be32(s, at).cast_signed()
    }
}

// Floats by value.
impl Element for f32 {
    ghost value = { float };

    ghost CODE = { 5 };

    const CODE: u8 = DataType::CODE_F32;

    ghost WIDTH = { 4 };

    const WIDTH: usize = 4;

    ghost sized = { refl };

    fn load(s: &[u8], at: usize) -> f32 {
        f32_of(be32(s, at))
    }
}

// Doubles by value.
impl Element for f64 {
    ghost value = { double };

    ghost CODE = { 6 };

    const CODE: u8 = DataType::CODE_F64;

    ghost WIDTH = { 8 };

    const WIDTH: usize = 8;

    ghost sized = { refl };

    fn load(s: &[u8], at: usize) -> f64 {
        f64_of(be64(s, at))
    }
}

// Floats by their bits: a NaN keeps its payload, and a host reads the same memory as floats.
impl Element for u32 {
    ghost value = { raw };

    ghost CODE = { 5 };

    const CODE: u8 = DataType::CODE_F32;

    ghost WIDTH = { 4 };

    const WIDTH: usize = 4;

    ghost sized = { refl };

    fn load(s: &[u8], at: usize) -> u32 {
        be32(s, at)
    }
}

// Doubles by their bits.
impl Element for u64 {
    ghost value = { raw };

    ghost CODE = { 6 };

    const CODE: u8 = DataType::CODE_F64;

    ghost WIDTH = { 8 };

    const WIDTH: usize = 8;

    ghost sized = { refl };

    fn load(s: &[u8], at: usize) -> u64 {
        be64(s, at)
    }
}
