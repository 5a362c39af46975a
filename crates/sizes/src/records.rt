// Chunks, the record size, and where variables end. Sizes are exact up to the limit of rule 12 and
// stay one above it from there on, so that no product or sum wraps.
ghost use Rattle.std.specs.Prelude.{◌≡◌, ℕ, ◌+◌, ◌*◌, ◌≤◌, cond, get_or, ltb};
ghost use Rattle.cdf.specs.Padding.{padding};
ghost use Rattle.items.specs.Types.{size_of};
ghost use Rattle.grammar.specs.Tables.{no_dim};
ghost use Rattle.sizes.specs.Records.{is_record, outer, chunk, max_chunk, sizes_hold};
ghost use Rattle.sizes.specs.Inner.Sizes.{capped, added, still_holds, ends_in, sizes_of};
ghost use Rattle.grammar.specs.Inner.Within.{Shaped};

use cdf::padding::compute_padding_size;
use grammar::tables::{Dim, MAX_POSITION, Tables, Var};
use items::types::DataType;
use model::rows::vars;

// The largest padded chunk and record size.
pub const MAX_CHUNK: u64 = 0x1000_0000_0000_0000;

// What one pass over the variables finds where rule 12 holds: the record size, the smallest begin of a
// record variable, whether the fixed variables end inside, and the largest end of a record variable's
// first chunk.
#[derive(Clone, Copy)]
pub struct Sizes {
    pub step: u64,
    pub first: u64,
    pub fixed: bool,
    pub last: u64,
}

// The product of the number that `a` stands for and `b`; without a division where both are small. Of `saturating_mul` LLVM makes a call
// of `__multi3` in wasm32, which is no part of the object.
fn times(a: u64, b: u64) -> u64
    ensures { (x : ℕ) → a ≡ capped x → result ≡ capped (x * b) }
{
    if a < 0x1000_0000 {
        if b < 0x1_0000_0000 {
            return a * b;
        }
    }
    if b == 0 {
        return 0;
    }
    if MAX_CHUNK / b < a {
        return MAX_CHUNK + 1;
    }
    a * b
}

// The length of a dimension; past the rows 0.
fn length_of(dims: &[Dim], id: u32) -> u32
    ensures { result ≡ (get_or dims.now id no_dim).length }
{
    let id = id as usize;
    if id < dims.len() { dims[id].length } else { 0 }
}

// Whether the unlimited dimension stands first.
#[tactic(auto, unfolding(crate::specs::Records::is_record))]
pub fn is_record(dims: &[Dim], v: &Var) -> bool
    ensures { result ≡ is_record dims.now v.now }
{
    0 < v.rank && length_of(dims, v.ids[0]) == 0
}

// How many dimensions are no part of the chunk.
fn outer(dims: &[Dim], v: &Var) -> usize
    ensures { (result ≡ outer dims.now v.now) × (result ≤ v.now.rank) }
{
    if is_record(dims, v) { 1 } else { 0 }
}

// The number of elements of a chunk: the product of the lengths but the unlimited one.
pub fn chunk_len(dims: &[Dim], v: &Var) -> u64
    requires { v.now.rank ≤ 8 }
    ensures { result ≡ capped (chunk dims.now v.now) }
{
    let first = outer(dims, v);
    let mut product = 1;
    for id in &v.ids[first..v.rank as usize] {
        product = times(product, length_of(dims, *id) as u64);
    }
    product
}

// The padded bytes of a chunk of `len` elements; above the limit where they are.
fn padded_bytes(len: u64, code: u8) -> u64
    requires { (len ≤ max_chunk + 1) × (1 ≤ code) × (code ≤ 6) }
    ensures { (x : ℕ) → len ≡ capped x → capped result ≡ capped (x * size_of code + padding (x * size_of code)) }
{
    let kind = DataType::of_code(code as u64);
    let bytes = times(len, kind.size_of());
    bytes + compute_padding_size(bytes)
}

// The sizes with one variable more, of `padded` bytes a chunk, where rule 12 still holds.
fn added(z: Sizes, records: bool, begin: u64, padded: u64) -> Option<Sizes>
    requires { z.step ≤ max_chunk }
    ensures { result ≡ cond (still_holds z records begin padded) (Some (added z records begin padded)) None }
{
    if MAX_POSITION < begin {
        return None;
    }
    if MAX_CHUNK < padded {
        return None;
    }
    let end = begin + padded;
    if !records {
        return Some(Sizes {
            fixed: z.fixed && end <= MAX_POSITION,
            ..z
        });
    }
    let step = z.step + padded;
    if MAX_CHUNK < step {
        return None;
    }
    Some(Sizes {
        step,
        first: z.first.min(begin),
        fixed: z.fixed,
        last: z.last.max(end),
    })
}

// The sizes, where rule 12 holds.
pub fn measure(t: &Tables) -> Option<Sizes>
    requires { Shaped t.now }
    ensures { result ≡ cond (sizes_hold t.now) (Some (sizes_of t.now)) None }
{
    let dims = &t.dims;
    let mut z = Sizes {
        step: 0,
        first: MAX_POSITION,
        fixed: true,
        last: 0,
    };
    for v in vars(t) {
        let padded = padded_bytes(chunk_len(dims, v), v.code);
        z = added(z, is_record(dims, v), v.begin, padded)?;
    }
    Some(z)
}

// Whether `steps` records of `step` bytes take more than `room` bytes; by a division, as in `times`.
fn passes(steps: u64, step: u64, room: u64) -> bool
    ensures { result ≡ ltb room (steps * step) }
{
    if step == 0 {
        return false;
    }
    room / step < steps
}

// Rule 15, where rule 12 holds, for `n` records.
pub fn ends_hold(z: Sizes, n: u64) -> bool
    ensures { result ≡ ends_in z n }
{
    if n == 0 {
        return z.fixed;
    }
    z.fixed && z.last <= MAX_POSITION && !passes(n - 1, z.step, MAX_POSITION - z.last)
}
