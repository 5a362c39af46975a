// The listing program: standard input has one file a line, in hexadecimal; standard output gets a heading and a line for each file:
// answer number, place, record count and header end, or `long`, or `hex`. Here is the reading and writing, the rest is in turn.rt.
#![tactic(auto)]

ghost use Rattle.std.specs.Prelude.{List, ℕ};
ghost use Rattle.io.specs.Counts.{IsPrefixLen};
ghost use Rattle.listing.specs.Listing.{Turns};

use crate::answer::Output;
use crate::turn::{finish, put_heading, turn};
use hexlines::cut::OpenLine;
use std::io::{Read, Stdin};

mod answer; // answer.rt: the answer for a line
mod turn; // turn.rt: turns, each with its part of the text and its output

// Lists a block of the input in turns, each written out.
fn list_block(block: &[u8], line: &mut OpenLine, out: &mut Output)
    ensures { (printed : List ℕ) × Turns line.old.items block.now printed line.new.items }
{
    let mut rest = block;
    while !rest.is_empty() {
        rest = turn(rest, line, out);
        io::write_all(1, out.as_slice());
    }
}

// Reads once, and answers how many bytes there are at the start of the block; a read that fails ends the input.
fn read_block(input: &mut Stdin, block: &mut [u8]) -> usize
    ensures { IsPrefixLen result block.new }
{
    input.read(block).unwrap_or(0)
}

// Lists standard input, but for a last line without a line end, which is then in `line`.
fn list(input: &mut Stdin, block: &mut [u8], line: &mut OpenLine, out: &mut Output)
    ensures { (input printed : List ℕ) × Turns line.old.items input printed line.new.items }
{
    // nothing says that the input ends: the reads are counted up to a number that no run reaches
    for _ in 0..u64::MAX {
        let n = read_block(input, block);
        if n == 0 {
            return;
        }
        list_block(&block[..n], line, out);
    }
}

fn main(rt: HostRuntime) {
    let mut block = [0u8; 65536];
    let mut line = OpenLine::new();
    let mut out = Output::new();
    put_heading(&mut out);
    io::write_all(1, out.as_slice());
    list(&mut rt.stdin(), &mut block, &mut line, &mut out);
    finish(&line, &mut out);
    io::write_all(1, out.as_slice());
}
