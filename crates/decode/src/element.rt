// The values that a variable's bytes are decoded into.
ghost use Rattle.std.specs.Prelude.{◌≡◌, ◌+◌, ◌*◌, ◌≤◌, ℕ, length};
ghost use Rattle.bigendian.specs.Number.{be};
ghost use Rattle.bigendian.specs.Lists.{tab};
ghost use Rattle.items.specs.Types.{size_of};
ghost use Rattle.decode.specs.Inner.Chunks.{of_chunk};

pub trait Element: Copy {
    // What the number that its bytes spell stands for.
    ghost value: { ℕ → Self };

    // The code of the type that a variable of such elements has, and the bytes of each.
    ghost CODE: { ℕ };

    const CODE: u8;

    ghost WIDTH: { ℕ };

    const WIDTH: usize;

    // The element whose bytes start at `at`.
    fn load(s: &[u8], at: usize) -> Self
        requires { at + WIDTH ≤ length s.now }
        ensures { result ≡ value (be WIDTH s.now at) };

    // A chunk: elements that stand one after the other.
    fn decode(src: &[u8], out: &mut [Self])
        requires { length src.now ≡ WIDTH * length out.old }
        ensures { out.new ≡ tab (of_chunk value WIDTH src.now) (length out.old) }
    {
        for i in 0..out.len() {
            out[i] = Self::load(src, Self::WIDTH * i);
        }
    }

    ghost sized: { size_of CODE ≡ WIDTH };
}
