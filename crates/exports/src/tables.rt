// The header reader. The tables cross as numbers (the crate crossing), for the caller to look at and to hand in again.
ghost use Rattle.std.specs.Prelude.{◌≡◌};
ghost use Rattle.header.specs.Header.{read_header};
ghost use Rattle.outputs.specs.Outputs.{TellsList};
ghost use Rattle.exports.specs.Reader.{admitted, header_words};

use cdf::version::Admitted;
use crossing::store::{WORDS, store_tables};
use header::reader::read_header;

// How many words the tables take.
pub fn fungal_tables_words() -> u64
    ensures { result ≡ 1768 }
{
    WORDS as u64
}

// The versions that a number admits: 1 classic, 2 64-bit offset, 3 both.
fn admitted(versions: u8) -> Admitted
    ensures { result ≡ admitted versions }
{
    Admitted {
        classic: versions % 2 == 1,
        offset64: versions / 2 % 2 == 1,
    }
}

// Puts down the tables and the header's end. The place of a refusal: `fungal_header_place`.
pub fn fungal_read_header(
    prefix: &[u8],
    size: u64,
    versions: u8,
    tables: &mut [u64],
    end: &mut u64,
) -> u8
    ensures { TellsList (header_words prefix.now size versions tables.old) result tables.old tables.new end.old end.new }
{
    let h = match read_header(prefix, size, admitted(versions)) {
        Ok(h) => h,
        Err(stop) => return stop.why.number(),
    };
    match store_tables(&h.tables, tables) {
        Ok(()) => {
            *end = h.end as u64;
            0
        }
        Err(k) => k.number(),
    }
}

// The place that belongs to the number of `fungal_read_header`; 0 where it has none.
pub fn fungal_header_place(prefix: &[u8], size: u64, versions: u8) -> u64
    ensures { result ≡ (read_header prefix.now size (admitted versions)).place }
{
    match read_header(prefix, size, admitted(versions)) {
        Ok(_) => 0,
        Err(stop) => stop.place as u64,
    }
}
