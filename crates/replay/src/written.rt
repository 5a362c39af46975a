// Headers that are written from the tables.
use crate::output::show_filled;
use crate::text::{least, show_number};
use grammar::tables::Tables;
use writer::header::{answer, write_header};

fn write_into(t: Tables, text: &[u8], out: &mut [u8]) {
    let written = answer(write_header(t, text, out));
    show_number(written.length);
    show_filled(written.number, out);
}

// The header's length, the answer's number, and every byte of an output of `room` bytes, those that the writer leaves too.
pub fn show_written(t: Tables, text: &[u8], room: usize) {
    let mut out = [0x99u8; 8192];
    let all = least(room, 8192);
    write_into(t, text, &mut out[..all]);
}
