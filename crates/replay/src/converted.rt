// Files in another version.
use crate::output::show_filled;
use crate::text::{least, show_number};
use cdf::refusal::Stop;
use convert::convert::{Converted, answer, narrow, widen};

fn convert(to_two: bool, prefix: &[u8], size: u64, out: &mut [u8]) -> Result<Converted, Stop> {
    if to_two {
        widen(prefix, size, out)
    } else {
        narrow(prefix, size, out)
    }
}

fn convert_into(to_two: bool, prefix: &[u8], size: u64, out: &mut [u8]) {
    let new = answer(convert(to_two, prefix, size, out));
    show_number(new.place as u64);
    show_number(new.new_length);
    show_number(new.size);
    show_filled(new.number, out);
}

// The place, the new header's length, the new size, the answer's number, and every byte of an output of `room` bytes, those that stay too.
pub fn show_converted(to_two: bool, prefix: &[u8], size: u64, room: usize) {
    let mut out = [0x99u8; 8192];
    let all = least(room, 8192);
    convert_into(to_two, prefix, size, &mut out[..all]);
}
