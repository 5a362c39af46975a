// The header writer.
ghost use Rattle.writer.specs.Writes.{write_header};
ghost use Rattle.outputs.specs.Outputs.{TellsList};
ghost use Rattle.exports.specs.Reader.{of_tables};

use crossing::load::load_tables;
use writer::header::write_header;

// Writes the header of tables whose names and values stand in `text`, and tells its length.
pub fn fungal_write_header(tables: &[u64], text: &[u8], out: &mut [u8], length: &mut u64) -> u8
    ensures { TellsList (of_tables tables.now (λ t. write_header text.now t out.old)) result out.old out.new length.old length.new }
{
    let t = match load_tables(tables) {
        Ok(t) => t,
        Err(k) => return k.number(),
    };
    match write_header(t, text, out) {
        Ok(n) => {
            *length = n;
            0
        }
        Err(k) => k.number(),
    }
}
