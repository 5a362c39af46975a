// A variable's name by its number, and its number by a name that stands in the file.
use crate::output::show_filled;
use crate::text::{show_last, wide};
use cdf::refusal::Refusal;
use grammar::tables::Tables;
use lookup::names::{find_name, find_var, var_name};

// The answer's number, then the bytes of the name of the variable `i`.
pub fn show_name(t: Tables, s: &[u8], i: usize) {
    let number = find_name(s, &t, i).err().map_or(0, Refusal::number);
    show_filled(number, var_name(s, &t, i));
}

// The bytes from `from` to `to`, or the empty part where they do not lie inside.
fn part(s: &[u8], from: usize, to: usize) -> &[u8] {
    if s.len() < to {
        return &s[0..0];
    }
    if to < from {
        return &s[0..0];
    }
    &s[from..to]
}

// The number of the variable whose name those bytes are.
pub fn show_found(t: Tables, s: &[u8], from: usize, to: usize) {
    match find_var(s, &t, part(s, from, to)) {
        Ok(i) => {
            io::write_all(1, b"at ");
            show_last(i as u64);
        }
        Err(k) => {
            io::write_all(1, b"refused ");
            show_last(wide(k.number()));
        }
    }
}
