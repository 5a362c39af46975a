// Cutting lines out of blocks of text.
ghost use Rattle.std.specs.Prelude.{◌≡◌, ◌≤◌, ◌++◌, take, eqb};
ghost use Rattle.std.specs.List.{position};
ghost use Rattle.hexlines.specs.Lines.{newline};
ghost use Rattle.hexlines.specs.Inner.Cut.{Cuts, kept};

use arrayvec::ArrayVec;

// One more than the longest line, so that a longer one shows.
pub const KEPT: usize = 16385;

// The characters of a line that is open, of which there may be more.
pub type OpenLine = ArrayVec<u8, KEPT>;

// Adds characters to the line; what is above `KEPT` is dropped.
fn keep<const N: usize>(line: &mut ArrayVec<u8, N>, more: &[u8])
    requires { kept ≤ N }
    ensures { line.new.items ≡ take kept (line.old.items ++ more.now) }
{
    line.truncate(KEPT);
    let fits = more.len().min(KEPT - line.len());
    line.try_extend_from_slice(&more[..fits]).unwrap();
}

fn line_end(block: &[u8]) -> Option<usize>
    ensures { result ≡ position (λ c. eqb c newline) block.now }
{
    block.iter().position(|&c| c == b'\n')
}

// Adds to the line the characters of the block up to its first line end, and answers what stands behind that; or all of them, and none where no line ends.
pub fn cut_line<'a, const N: usize>(block: &'a [u8], line: &mut ArrayVec<u8, N>) -> Option<&'a [u8]>
    requires { kept ≤ N }
    ensures { Cuts block.now line.old.items line.new.items result }
{
    match line_end(block) {
        Some(end) => {
            keep(line, &block[..end]);
            Some(&block[end + 1..])
        }
        None => {
            keep(line, block);
            None
        }
    }
}
