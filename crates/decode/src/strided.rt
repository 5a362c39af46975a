// A whole variable: the chunk of each of `count` records, one `stride` bytes after the other, goes to the output from element
// k × `chunk` on; that part of the output is lent on to the chunk decoder. What lies after the last record's values stays.
// Of the last record the values alone have to be there, not what fills it up to the stride.
#![tactic(auto, using(bigendian::proofs::Laws::Lists::row_in))]

ghost use Rattle.std.specs.Prelude.{◌≡◌, ◌++◌, ℕ, ◌+◌, ◌*◌, ◌<◌, ◌≤◌, length, drop};
ghost use Rattle.bigendian.specs.Lists.{grid};
ghost use Rattle.decode.specs.Inner.Chunks.{of_record};

use crate::element::Element;

pub fn records<T: Element>(src: &[u8], out: &mut [T], count: usize, chunk: usize, stride: usize)
    requires chunk_in_bounds { count * chunk ≤ length out.old }
    requires by_index { (k : ℕ) → k < count → k * stride + T.WIDTH * chunk ≤ length src.now }
    ensures { out.new ≡ grid (of_record T.value T.WIDTH src.now stride) chunk count ++ drop (count * chunk) out.old }
{
    for k in 0..count {
        let a = k * chunk;
        let b = a + chunk;
        let c = k * stride;
        let d = c + T::WIDTH * chunk;
        T::decode(&src[c..d], &mut out[a..b]);
    }
}
