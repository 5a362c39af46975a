// A place of a header's bytes, where a word of the grammar is read.
ghost use Rattle.std.specs.Prelude.{◌≤◌, length};

// The place `at` of the bytes at hand, the first of a file of `size` bytes.
#[derive(Clone, Copy)]
pub struct Place<'a> {
    pub bytes: &'a [u8],
    pub size: u64,
    pub at: usize,
    ghost inside: { at ≤ length bytes.now },
}
