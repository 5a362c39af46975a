// Widening and narrowing: the new header goes to `out`, its length and the new file's size beside it. The place of a header's refusal:
// `fungal_header_place` with both versions.
ghost use Rattle.convert.specs.Convert.{convert};
ghost use Rattle.outputs.specs.Outputs.{TellsConverted};

use convert::convert::{narrow, widen};

pub fn fungal_widen(
    prefix: &[u8],
    size: u64,
    out: &mut [u8],
    length: &mut u64,
    grown: &mut u64,
) -> u8
    ensures { TellsConverted (convert 2 prefix.now size out.old) result out.old out.new length.old length.new grown.old grown.new }
{
    match widen(prefix, size, out) {
        Ok(new) => {
            *length = new.length;
            *grown = new.size;
            0
        }
        Err(stop) => stop.why.number(),
    }
}

pub fn fungal_narrow(
    prefix: &[u8],
    size: u64,
    out: &mut [u8],
    length: &mut u64,
    grown: &mut u64,
) -> u8
    ensures { TellsConverted (convert 1 prefix.now size out.old) result out.old out.new length.old length.new grown.old grown.new }
{
    match narrow(prefix, size, out) {
        Ok(new) => {
            *length = new.length;
            *grown = new.size;
            0
        }
        Err(stop) => stop.why.number(),
    }
}
