// Widening, to version 2, and narrowing, to version 1.
ghost use Rattle.std.specs.Prelude.{◌≡◌, true};
ghost use Rattle.grammar.specs.Inner.Within.{Shaped};
ghost use Rattle.model.specs.Model.{ids_hold};
ghost use Rattle.sizes.specs.Records.{sizes_hold, ends_hold};
ghost use Rattle.convert.specs.Convert.{converted, convert, converted_of, Converts};
ghost use Rattle.convert.specs.Inner.Read.{Read, as_read, stopped};

use crate::begins::{begins_behind, begins_below, moved_tables};
use crate::length::header_len;
use cdf::refusal::{Refusal, Stop};
use cdf::version::Admitted;
use grammar::tables::{MAX_POSITION, Tables};
use header::reader::{Header, read_header};
use order::words::begin_end;
use sizes::records::{ends_hold, measure};
use writer::header::write_header;

// A file that was widened or narrowed: the new header's length and the new file's size.
#[derive(Clone, Copy, Debug, PartialEq, Eq, Hash)]
pub struct Converted {
    pub length: u64,
    pub size: u64,
}

// The whole answer: the number and place of a refusal, with both lengths 0; or 0, the new header's length and the new file's size.
#[derive(Clone, Copy, Debug, PartialEq, Eq, Hash)]
pub struct ConvertedAnswer {
    pub number: u8,
    pub place: usize,
    pub new_length: u64,
    pub size: u64,
}

// What a result of `widen` or `narrow` answers.
pub fn answer(made: Result<Converted, Stop>) -> ConvertedAnswer
    ensures { result ≡ converted_of made }
{
    match made {
        Ok(new) => ConvertedAnswer {
            number: 0,
            place: 0,
            new_length: new.length,
            size: new.size,
        },
        Err(stop) => ConvertedAnswer {
            number: stop.why.number(),
            place: stop.place,
            new_length: 0,
            size: 0,
        },
    }
}

// Whether no variable ends above 2^62.
fn new_ends_hold(t: &Tables) -> bool
    requires { Shaped t.now × (ids_hold t.now ≡ true) × (ends_hold t.now t.now.count ≡ true → sizes_hold t.now ≡ true) }
    ensures { result ≡ ends_hold t.now t.now.count }
{
    let Some(z) = measure(t) else {
        return false;
    };
    ends_hold(z, t.count)
}

// The file whose header was read from `prefix`.
fn in_version(h: &Header, prefix: &[u8], version: u8, out: &mut [u8]) -> Result<Converted, Refusal>
    requires { Read prefix.now (as_read h.now) }
    ensures { Converts out.old (converted version prefix.now (as_read h.now) out.old) (stopped result) out.new }
{
    let t = &h.tables;
    let old = h.end as u64;
    if !begins_behind(t, old) {
        return Err(Refusal::BeginInHeader);
    }
    let u = moved_tables(t, version, old, header_len(t, version));
    if !begins_below(&u, begin_end(version)) {
        return Err(Refusal::BeginTooFar);
    }
    if MAX_POSITION < u.size {
        return Err(Refusal::FileSize);
    }
    if !new_ends_hold(&u) {
        return Err(Refusal::Ends);
    }
    let length = write_header(u, prefix, out)?;
    Ok(Converted {
        length,
        size: u.size,
    })
}

fn convert(prefix: &[u8], size: u64, version: u8, out: &mut [u8]) -> Result<Converted, Stop>
    ensures { Converts out.old (convert version prefix.now size out.old) result out.new }
{
    let both = Admitted {
        classic: true,
        offset64: true,
    };
    let h = read_header(prefix, size, both)?;
    Ok(in_version(&h, prefix, version, out)?)
}

// The header of a file of `size` bytes that starts with `prefix`, in version 2.
pub fn widen(prefix: &[u8], size: u64, out: &mut [u8]) -> Result<Converted, Stop>
    ensures { Converts out.old (convert 2 prefix.now size out.old) result out.new }
{
    convert(prefix, size, 2, out)
}

// And in version 1.
pub fn narrow(prefix: &[u8], size: u64, out: &mut [u8]) -> Result<Converted, Stop>
    ensures { Converts out.old (convert 1 prefix.now size out.old) result out.new }
{
    convert(prefix, size, 1, out)
}
