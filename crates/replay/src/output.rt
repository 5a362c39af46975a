// Reads into an output: the answer's number, then every element of the output, those that the read leaves too.
ghost use Rattle.std.specs.Prelude.{◌≤◌, length};

use crate::print::Print;
use crate::text::wide;
use cdf::refusal::Refusal;
use found::variable::{Spread, seek};
use grammar::tables::Tables;
use reads::window::Window;
use records::record::read_record;
use records::whole::read_whole;

// The variable's records, all or one, by the type of the code, into an output of `room` elements.
#[derive(Clone, Copy)]
pub struct Ask {
    pub all: bool,
    pub var: usize,
    pub record: u64,
    pub code: u64,
    pub room: usize,
}

pub fn show_filled<T: Print>(number: u8, values: &[T]) {
    io::print_decimal(1, wide(number));
    for x in values {
        x.print();
    }
    io::write_all(1, b"\n");
}

fn filled<T: Print>(
    found: Result<Spread, Refusal>,
    window: Window,
    a: Ask,
    out: &mut [T],
) -> Result<(), Refusal> {
    if a.all {
        read_whole(found, window, out)
    } else {
        read_record(found, window, a.record, out)
    }
}

// `values` is what an output is full of before a read.
fn run<T: Print>(found: Result<Spread, Refusal>, window: Window, a: Ask, values: &mut [T])
    requires { a.room ≤ length values.old }
{
    let out = &mut values[..a.room];
    let answer = filled(found, window, a, out);
    show_filled(answer.err().map_or(0, Refusal::number), out);
}

pub fn show_output(t: Tables, s: &[u8], start: u64, a: Ask)
    requires { a.room ≤ 64 }
{
    let found = seek(&t, a.var);
    let window = Window { bytes: s, start };
    match a.code {
        1 => run(found, window, a, &mut [99i8; 64]),
        2 => run(found, window, a, &mut [99u8; 64]),
        3 => run(found, window, a, &mut [99i16; 64]),
        4 => run(found, window, a, &mut [99i32; 64]),
        5 => run(found, window, a, &mut [99u32; 64]),
        6 => run(found, window, a, &mut [99u64; 64]),
        7 => run(found, window, a, &mut [1.0f32; 64]),
        _ => run(found, window, a, &mut [1.0f64; 64]),
    }
}
