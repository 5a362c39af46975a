// Whether there is room for records, without a product that wraps.
ghost use Rattle.std.specs.Prelude.{◌≡◌, ◌*◌, leb};

// Whether a × b is at most n. By a division: of `checked_mul` LLVM makes a call of `__multi3` in wasm32, which is no part of the object.
pub fn product_within(a: usize, b: usize, n: usize) -> bool
    ensures { result ≡ leb (a * b) n }
{
    if b == 0 {
        return true;
    }
    a <= n / b
}
