// A line of hexadecimal.
ghost use Rattle.std.specs.Prelude.{◌≡◌, ◌*◌, ◌/◌, ◌≤◌, length, IsSome, IsTrue, ◌↔◌, OnSome, OnErr, []};
ghost use Rattle.bigendian.specs.Lists.{tab};
ghost use Rattle.hexlines.specs.Digit.{are_digits, pair};
ghost use Rattle.hexlines.specs.Line.{kind_of};
ghost use Rattle.hexlines.specs.Inner.Answers.{of_line};

use crate::digit::worth;
use arrayvec::ArrayVec;

pub const MAX_LINE: usize = 16384;

// The bytes that the longest line spells.
pub const MAX_FILE: usize = 8192;

pub type FileBytes = ArrayVec<u8, MAX_FILE>;

// Why a line spells no file.
#[derive(Clone, Copy, Debug, PartialEq, Eq)]
pub enum NoFile {
    Long,
    Hex,
}

// The bytes that the digits spell, two a byte; none where a character is no digit.
fn decode<const N: usize>(text: &[u8], file: &mut ArrayVec<u8, N>) -> Option<()>
    requires { (length text.now ≤ 16384) × (8192 ≤ N) × (file.old.items ≡ []) }
    ensures value { IsSome result ↔ IsTrue (are_digits (length text.now / 2 * 2) text.now) }
    ensures file_after { OnSome result (file.new.items ≡ tab (pair text.now) (length text.now / 2)) }
{
    for i in 0..text.len() / 2 {
        let high = worth(text[2 * i])?;
        let low = worth(text[2 * i + 1])?;
        file.push(high * 16 + low);
    }
    Some(())
}

// The bytes of the file that the line `text` spells, or why it spells none: `file` is then empty.
pub fn line_answer<const N: usize>(text: &[u8], file: &mut ArrayVec<u8, N>) -> Result<(), NoFile>
    requires { 8192 ≤ N }
    ensures means { of_line result file.new.items ≡ kind_of text.now }
    ensures refused { OnErr result (file.new.items ≡ []) }
{
    file.clear();
    if MAX_LINE < text.len() {
        return Err(NoFile::Long);
    }
    if text.len() % 2 != 0 {
        return Err(NoFile::Hex);
    }
    if decode(text, file).is_none() {
        file.clear();
        return Err(NoFile::Hex);
    }
    Ok(())
}
