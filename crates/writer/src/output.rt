// An output, which bytes, words and names are put into, one after the other.
ghost use Rattle.std.specs.Prelude.{◌≡◌, ◌+◌, ◌≤◌, ◌<◌, length, replicate};
ghost use Rattle.cdf.specs.Form.{form};
ghost use Rattle.items.specs.Name.{part};
ghost use Rattle.rules.specs.Rules.{spelled};
ghost use Rattle.rules.specs.Encode.{padded_out, name_bytes};
ghost use Rattle.writer.specs.Inner.Put.{Put, Adds, Room};
ghost use Rattle.writer.specs.Inner.Parts.{start_bytes};

use cdf::padding::compute_padding_size;

// Puts `more` at a place. A loop, and not `copy_from_slice`, of which LLVM makes a call with a length of 64 bits, which is not valid in wasm32.
fn copy_bytes(bytes: &mut [u8], at: usize, more: &[u8])
    requires { at + length more.now ≤ length bytes.old }
    ensures { Put bytes.old at more.now bytes.new (at + length more.now) }
{
    for i in 0..more.len() {
        bytes[at + i] = more[i];
    }
}

// The same, eight bytes at a time. All eight are read before the first is written: LLVM, which is not told that the slices lie apart, makes one load
// and one store of them only so.
fn copy_eights(bytes: &mut [u8], at: usize, more: &[u8])
    requires { at + length more.now ≤ length bytes.old }
    ensures { Put bytes.old at more.now bytes.new (at + length more.now) }
{
    let eights = more.len() / 8;
    for j in 0..eights {
        let i = 8 * j;
        let eight = [
            more[i],
            more[i + 1],
            more[i + 2],
            more[i + 3],
            more[i + 4],
            more[i + 5],
            more[i + 6],
            more[i + 7],
        ];
        copy_bytes(bytes, at + i, &eight);
    }
    copy_bytes(bytes, at + 8 * eights, &more[8 * eights..]);
}

// From so many bytes on the vectors that LLVM makes of the plain loop are worth the tests of length and distance that go before them; most names
// and values have fewer.
const MANY: usize = 64;

fn copy(bytes: &mut [u8], at: usize, more: &[u8])
    requires { at + length more.now ≤ length bytes.old }
    ensures { Put bytes.old at more.now bytes.new (at + length more.now) }
{
    if more.len() < MANY {
        copy_eights(bytes, at, more);
    } else {
        copy_bytes(bytes, at, more);
    }
}

// The `n` zeros of a padding: its first byte, one in the middle, its last, which for so few are all; a loop or `fill` would become a call.
fn pad(bytes: &mut [u8], at: usize, n: usize)
    requires { (n ≤ 3) × (at + n ≤ length bytes.old) }
    ensures { Put bytes.old at (replicate n 0) bytes.new (at + n) }
{
    if n == 0 {
        return;
    }
    bytes[at] = 0;
    bytes[at + n / 2] = 0;
    bytes[at + n - 1] = 0;
}

// The next byte goes to `at`.
#[derive(Drop)]
pub(crate) struct Output<'a> {
    pub(crate) bytes: &'a mut [u8],
    pub(crate) at: usize,
}

impl<'a> Output<'a> {
    pub(crate) fn put(&mut self, more: &[u8])
        requires { Room self.old more.now }
        ensures same { self.new.bytes.ghost_name ≡ self.old.bytes.ghost_name }
        ensures put { Adds self.old more.now self.new }
    {
        copy(&mut *self.bytes, self.at, more);
        self.at += more.len();
    }

    // The zeros of a padding.
    fn zeros(&mut self, n: usize)
        requires { (n ≤ 3) × (self.old.at + n ≤ length self.old.bytes.now) }
        ensures same { self.new.bytes.ghost_name ≡ self.old.bytes.ghost_name }
        ensures put { Adds self.old (replicate n 0) self.new }
    {
        pad(&mut *self.bytes, self.at, n);
        self.at += n;
    }

    // A word of four bytes, the most significant first.
    pub(crate) fn word(&mut self, v: u64)
        requires { self.old.at + 4 ≤ length self.old.bytes.now }
        ensures same { self.new.bytes.ghost_name ≡ self.old.bytes.ghost_name }
        ensures put { Adds self.old (spelled 4 v) self.new }
    {
        let bytes = v.to_be_bytes();
        self.put(&bytes[4..]);
    }

    // Bytes and their padding.
    pub(crate) fn padded(&mut self, more: &[u8])
        requires { Room self.old (padded_out more.now) }
        ensures same { self.new.bytes.ghost_name ≡ self.old.bytes.ghost_name }
        ensures put { Adds self.old (padded_out more.now) self.new }
    {
        self.put(more);
        self.zeros(compute_padding_size(more.len() as u64) as usize);
    }

    // A name, which stands in the text at `name`.
    pub(crate) fn name(&mut self, text: &[u8], name: usize, chars: usize)
        requires inside { name + chars ≤ length text.now }
        requires room { Room self.old (name_bytes (form 1) (part text.now name chars)) }
        ensures same { self.new.bytes.ghost_name ≡ self.old.bytes.ghost_name }
        ensures put { Adds self.old (name_bytes (form 1) (part text.now name chars)) self.new }
    {
        self.word(chars as u64);
        self.padded(&text[name..name + chars]);
    }

    // How a list of `n` items starts: absent, or its tag and their number.
    pub(crate) fn start(&mut self, tag: u8, n: usize)
        requires { self.old.at + 8 ≤ length self.old.bytes.now }
        ensures same { self.new.bytes.ghost_name ≡ self.old.bytes.ghost_name }
        ensures put { Adds self.old (start_bytes tag n) self.new }
    {
        if n == 0 {
            self.put(&[0; 8]);
        } else {
            self.word(tag as u64);
            self.word(n as u64);
        }
    }

    // A begin, in the width of the version.
    pub(crate) fn begin(&mut self, version: u8, v: u64)
        requires { self.old.at + (form version).begin_bytes ≤ length self.old.bytes.now }
        ensures same { self.new.bytes.ghost_name ≡ self.old.bytes.ghost_name }
        ensures put { Adds self.old (spelled (form version).begin_bytes v) self.new }
    {
        if version == 1 {
            self.word(v);
        } else {
            self.put(&v.to_be_bytes());
        }
    }
}
