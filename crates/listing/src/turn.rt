// The listing in turns, in memory alone: a turn takes a part of the text and fills an output with answers. `line` holds the characters
// of the line that is open, at most one more than the longest line has.
ghost use Rattle.std.specs.Prelude.{◌≡◌, ℕ, ◌<◌, List, [], ◌++◌, length};
ghost use Rattle.listing.specs.Listing.{heading, left, Turns};

use crate::answer::{MOST, Output, put_answer};
use hexlines::cut::{OpenLine, cut_line};
use hexlines::text::put_text;

pub fn put_heading(out: &mut Output)
    ensures { out.new.items ≡ heading }
{
    out.clear();
    put_text(out, b"answer place records end\n");
}

// Answers the lines of a block, up to its end or until the output has no room for one more answer. What is left of the block is answered.
pub fn turn<'a>(block: &'a [u8], line: &mut OpenLine, out: &mut Output) -> &'a [u8]
    ensures turns { (taken : List ℕ) × (block.now ≡ taken ++ result.now) × Turns line.old.items taken out.new.items line.new.items }
    ensures goes_on { 0 < length block.now → length result.now < length block.now }
{
    out.clear();
    let mut rest = block;
    while let Some(next) = cut_line(rest, line) {
        put_answer(out, line.as_slice());
        line.clear();
        rest = next;
        if out.remaining_capacity() < MOST {
            return rest;
        }
    }
    &[]
}

// Answers the last line, where it has no line end and is not empty.
#[tactic(auto, using(crate::proofs::Laws::Listing::left_none, crate::proofs::Laws::Listing::left_last))]
pub fn finish(line: &OpenLine, out: &mut Output)
    ensures { out.new.items ≡ left line.now.items [] }
{
    out.clear();
    if line.is_empty() {
        return;
    }
    put_answer(out, line.as_slice());
}
