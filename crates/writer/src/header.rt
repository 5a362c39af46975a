// The header writer.
ghost use Rattle.std.specs.Prelude.{◌≡◌, ◌≤◌, ◌++◌, length, drop};
ghost use Rattle.writer.specs.Inner.Put.{Adds, Room};
ghost use Rattle.writer.specs.Inner.Parts.{header_out, RowsIn};
ghost use Rattle.cdf.specs.Refusals.{answered};
ghost use Rattle.writer.specs.Writes.{length_told, write_header, Writes};

use crate::output::Output;
use crate::rows::put_list;
use cdf::list::{ATTRIBUTE_TAG, DIMENSION_TAG, VARIABLE_TAG};
use cdf::refusal::Refusal;
use grammar::tables::Tables;
use order::writable::judged_in_place;

// The whole answer: 0 and the header's length, or the number of a refusal and 0.
#[derive(Clone, Copy, Debug, PartialEq, Eq, Hash)]
pub struct Written {
    pub number: u8,
    pub length: u64,
}

// What a result of `write_header` answers.
pub fn answer(written: Result<u64, Refusal>) -> Written
    ensures { result ≡ record { number = answered written; length = length_told written } }
{
    match written {
        Ok(length) => Written { number: 0, length },
        Err(why) => Written {
            number: why.number(),
            length: 0,
        },
    }
}

// `CDF` and no version.
const MAGIC: u64 = 0x4344_4600;

// The whole header.
fn put_header(out: &mut Output, text: &[u8], t: &Tables)
    requires there { RowsIn text.now t.now }
    requires room { Room out.old (header_out text.now t.now) }
    ensures same { out.new.bytes.ghost_name ≡ out.old.bytes.ghost_name }
    ensures put { Adds out.old (header_out text.now t.now) out.new }
{
    out.word(MAGIC + t.version as u64);
    out.word(t.word);
    put_list(out, DIMENSION_TAG, text, t, &t.dims[..t.ndims]);
    put_list(out, ATTRIBUTE_TAG, text, t, &t.attrs[..t.globals]);
    put_list(out, VARIABLE_TAG, text, t, &t.vars[..t.nvars]);
}

// The same at an output's start.
fn put_first(bytes: &mut [u8], text: &[u8], t: &Tables)
    requires there { RowsIn text.now t.now }
    requires room { length (header_out text.now t.now) ≤ length bytes.old }
    ensures { bytes.new ≡ header_out text.now t.now ++ drop (length (header_out text.now t.now)) bytes.old }
{
    let mut out = Output { bytes, at: 0 };
    put_header(&mut out, text, t);
}

// Writes the header of tables whose names and values stand in `text`, and tells its length. Tables go by value here, since what their type
// says of the rows' arrays, which the proof needs, is known of a value alone.
pub fn write_header(t: Tables, text: &[u8], out: &mut [u8]) -> Result<u64, Refusal>
    ensures { Writes out.old (write_header text.now t out.old) result out.new }
{
    let Some(length) = judged_in_place(text, &t) else {
        return Err(Refusal::Tables);
    };
    if (out.len() as u64) < length {
        return Err(Refusal::OutputRoom);
    }
    put_first(out, text, &t);
    Ok(length)
}
