// The answer for a line.
ghost use Rattle.std.specs.Prelude.{◌≡◌, ◌++◌, ◌+◌, ◌≤◌, length};
ghost use Rattle.arrayvec.specs.ArrayVec.{array_vec_len};
ghost use Rattle.hexlines.specs.Line.{kind_of};
ghost use Rattle.listing.specs.Listing.{file_text, text};

use arrayvec::ArrayVec;
use cdf::version::Admitted;
use header::reader::read_header;
use hexlines::line::{FileBytes, NoFile, line_answer};
use hexlines::text::{put_fields, put_text};

// The most that an answer takes: four numbers of 20 digits, each with a character after it.
pub(crate) const MOST: usize = 84;

// The answers of a turn.
pub type Output = ArrayVec<u8, 4096>;

// Puts the answer for the file `bytes` behind the output.
fn put_file(out: &mut Output, bytes: &[u8])
    requires { array_vec_len out.old + 84 ≤ 4096 }
    ensures text { out.new.items ≡ out.old.items ++ file_text bytes.now }
    ensures fits { array_vec_len out.new ≤ array_vec_len out.old + 84 }
{
    let both = Admitted {
        classic: true,
        offset64: true,
    };
    match read_header(bytes, bytes.len() as u64, both) {
        Ok(h) => put_fields(out, 0, 0, h.tables.count, h.end as u64),
        Err(stop) => put_fields(out, stop.why.number() as u64, stop.place as u64, 0, 0),
    }
}

// Puts the answer for a line behind the output.
#[tactic(auto, unfolding(crate::specs::Listing::text))]
pub(crate) fn put_answer(out: &mut Output, line: &[u8])
    requires { array_vec_len out.old + 84 ≤ 4096 }
    ensures text { out.new.items ≡ out.old.items ++ text (kind_of line.now) }
    ensures fits { array_vec_len out.new ≤ array_vec_len out.old + 84 }
{
    let mut file = FileBytes::new();
    match line_answer(line, &mut file) {
        Ok(()) => put_file(out, file.as_slice()),
        Err(NoFile::Long) => put_text(out, b"long\n"),
        Err(NoFile::Hex) => put_text(out, b"hex\n"),
    }
}
