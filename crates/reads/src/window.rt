// The bytes of a file that a read has at hand.
#![tactic(auto, unfolding(crate::specs::Reads::holds))]

ghost use Rattle.std.specs.Prelude.{◌≡◌, length};
ghost use Rattle.reads.specs.Reads.{holds};

// Bytes that start at the file's position `start`.
#[derive(Clone, Copy)]
pub struct Window<'a> {
    pub bytes: &'a [u8],
    pub start: u64,
}

impl Window<'_> {
    // Whether the `n` bytes from the file's position `at` are among them.
    pub fn holds(self, at: u64, n: u64) -> bool
        ensures { result ≡ holds (length self.entry.bytes.now) self.entry.start at n }
    {
        if at < self.start {
            return false;
        }
        let skipped = at - self.start;
        let held = self.bytes.len() as u64;
        if held < skipped {
            return false;
        }
        n <= held - skipped
    }
}
