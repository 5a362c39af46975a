// Numbers of two bytes: one by itself, and four of them as a number of eight bytes.
ghost use Rattle.std.specs.Prelude.{◌≡◌, ◌+◌, ◌*◌, ◌/◌, ◌%◌, ◌<◌, ◌≤◌, length};
ghost use Rattle.bigendian.specs.Number.{be};
ghost use Rattle.decode.specs.Inner.Pairs.{evens, swapped};

// The number that the two bytes from `at` spell.
pub fn be16(s: &[u8], at: usize) -> u16
    requires { at + 2 ≤ length s.now }
    ensures { result ≡ be 2 s.now at }
{
    u16::from(s[at]) * 256 + u16::from(s[at + 1])
}

// The lowest two bytes of a number of eight.
pub(crate) fn low16(x: u64) -> u16
    ensures { result ≡ x % 65536 }
{
    (x % 65536) as u16
}

// The bytes 0, 2, 4 and 6 of a number of eight, at their places: LLVM makes one mask of it, and no result is above that mask.
fn evens(x: u64) -> u64
    ensures { (result ≡ evens x) × (result ≤ 0xff_00ff_00ff_00ff) }
{
    x % 256
        + x / 0x1_0000 % 256 * 0x1_0000
        + x / 0x1_0000_0000 % 256 * 0x1_0000_0000
        + x / 0x1_0000_0000_0000 % 256 * 0x1_0000_0000_0000
}

// A number of eight bytes, each pair of them swapped.
pub(crate) fn swap_pairs(x: u64) -> u64
    ensures { result ≡ swapped x }
{
    evens(x) * 256 + evens(x / 256)
}
