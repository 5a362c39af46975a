// The float or double that a pattern of bits stands for.
ghost use Rattle.std.specs.Prelude.{◌≡◌};
ghost use Rattle.decode.specs.Decoded.{float, double};

// The NaN for each NaN pattern: shifted left the sign is gone, and those alone lie above an infinity.
// One shift and one comparison; no other form of the test is as fast.
pub fn f32_of(b: u32) -> f32
    ensures { result ≡ float b }
{
    if b << 1 > 0xff00_0000 {
        0.0 / 0.0
    } else {
        f32::from_bits(b)
    }
}

// By itself: the two widths share no trait with a shift, an order and `from_bits`, and one of our own would be longer than both.
pub fn f64_of(b: u64) -> f64
    ensures { result ≡ double b }
{
    if b << 1 > 0xffe0_0000_0000_0000 {
        0.0 / 0.0
    } else {
        f64::from_bits(b)
    }
}
