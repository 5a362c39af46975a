// Runs the header reader, the reads, the lookups, the header writer, widening and narrowing on recorded files. A line of standard input is a letter, a
// space and what the letter takes: the bytes of a file in hexadecimal, or numbers in decimal.
//     f HEX                      a file: all that the header reader answers, where both versions are admitted
//     h SET LENGTH SIZE          the same for the file's first bytes, a file of that size, and the versions in the set: 1, 2 or both (3)
//     w FROM TO                  the window is these bytes of the file, until the next file
//     s START                    the reads are told that the window starts there, until the next file or window
//     e VAR RECORD ELEMENT       an element of whatever type
//     t VAR RECORD ELEMENT CODE  an element of a variable that must have the type
//     r VAR RECORD CODE ROOM     a record, into an output of so many elements
//     a VAR 0 CODE ROOM          all records
//     m VAR                      a variable's name: the answer's number, then its bytes
//     q FROM TO                  the variable whose name is these bytes of the file
//     x ROOM LENGTH              the tables' header, written into an output of so many bytes; the file's first bytes are the text
//     2 ROOM LENGTH SIZE         the file's first bytes, a file of that size, widened into an output of so many bytes; 1: narrowed
// The other letters change a number of the tables (tables.rt). tests/replay.py writes the lines and
// what is expected.
#![tactic(auto)]

ghost use Rattle.std.specs.Prelude.{◌≡◌, length};

use crate::converted::show_converted;
use crate::element::{show_element, show_typed};
use crate::names::{show_found, show_name};
use crate::output::{Ask, show_output};
use crate::shown::show_header;
use crate::tables::changed;
use crate::text::numbers;
use crate::written::show_written;
use cdf::version::Admitted;
use grammar::tables::{Tables, blank};
use header::reader::{answer as header_answer, read_header};
use hexlines::cut::{OpenLine, cut_line};
use hexlines::line::{FileBytes, line_answer};

mod converted;
mod element;
mod names;
mod output;
mod print;
mod shown;
mod tables;
mod text;
mod written;

// The last file's tables and size, the window on its bytes, and where the reads are told that it starts.
#[derive(Clone, Copy)]
struct Held {
    tables: Tables,
    size: usize,
    from: usize,
    to: usize,
    start: u64,
}

// The tables of a file of that size which starts with `prefix`, blank ones in a refusal.
fn headed(set: u64, prefix: &[u8], size: u64) -> Tables {
    let admitted = Admitted {
        classic: set % 2 == 1,
        offset64: set / 2 % 2 == 1,
    };
    let h = header_answer(read_header(prefix, size, admitted));
    show_header(&h);
    h.tables
}

// The header of a file, and the window that holds all of it.
fn opened(bytes: &[u8]) -> Held {
    let tables = headed(3, bytes, bytes.len() as u64);
    let size = bytes.len();
    Held {
        tables,
        size,
        from: 0,
        to: size,
        start: 0,
    }
}

fn nothing() -> Held {
    Held {
        tables: blank(),
        size: 0,
        from: 0,
        to: 0,
        start: 0,
    }
}

// The file that the digits spell, whose bytes go to `file`.
fn loaded(digits: &[u8], file: &mut FileBytes) -> Held {
    match line_answer(digits, file) {
        Ok(()) => opened(file.as_slice()),
        Err(_) => nothing(),
    }
}

// A read of the variable that `a` numbers, out of the bytes `s` of the file from the position `start` on.
fn read(kind: u8, a: [u64; 4], t: Tables, s: &[u8], start: u64) {
    match kind {
        b'e' => show_element(t, s, start, a),
        b't' => show_typed(t, s, start, a),
        _ => {
            let ask = Ask {
                all: kind == b'a',
                var: a[0] as usize,
                record: a[1],
                code: a[2],
                room: (a[3] as usize).min(64),
            };
            show_output(t, s, start, ask);
        }
    }
}

// A name of the file whose bytes are `s`, or the variable that has one.
fn look_up(kind: u8, a: [u64; 4], t: Tables, s: &[u8]) {
    if kind == b'm' {
        show_name(t, s, a[0] as usize);
        return;
    }
    show_found(t, s, a[0] as usize, a[1] as usize);
}

// What a line that changes nothing asks of the last file.
fn answer(kind: u8, a: [u64; 4], file: &[u8], held: Held) {
    let tables = held.tables;
    let size = held.size.min(file.len());
    match kind {
        b'h' => {
            let length = (a[1] as usize).min(size);
            headed(a[0], &file[0..length], a[2]);
        }
        b'x' => {
            let length = (a[1] as usize).min(size);
            show_written(tables, &file[0..length], a[0] as usize);
        }
        b'1' | b'2' => {
            let length = (a[1] as usize).min(size);
            show_converted(kind == b'2', &file[0..length], a[2], a[0] as usize);
        }
        b'm' | b'q' => look_up(kind, a, tables, &file[0..size]),
        _ => {
            let to = held.to.min(file.len());
            let from = held.from.min(to);
            read(kind, a, tables, &file[from..to], held.start);
        }
    }
}

// What is held after a line with the letter `kind` and the numbers `a`.
fn asked(kind: u8, a: [u64; 4], file: &[u8], held: Held) -> Held {
    let mut next = held;
    match kind {
        b'h' | b'x' | b'1' | b'2' | b'm' | b'q' | b'e' | b't' | b'r' | b'a' => answer(
            kind, a, file, held,
        ),
        b'w' => {
            next.from = a[0] as usize;
            next.to = (a[1] as usize).min(held.size);
            next.start = a[0];
        }
        b's' => next.start = a[0],
        _ => next.tables = changed(kind, a, held.tables),
    }
    next
}

fn line(text: &[u8], file: &mut FileBytes, held: Held) -> Held {
    if text.len() < 2 {
        return held;
    }
    let kind = text[0];
    if kind == b'f' {
        return loaded(&text[2..], file);
    }
    asked(kind, numbers(&text[2..]), file.as_slice(), held)
}

fn lines(text: &[u8]) {
    let mut held = nothing();
    let mut file = FileBytes::new();
    let mut open = OpenLine::new();
    let mut rest = text;
    while !rest.is_empty() {
        open.clear();
        rest = cut_line(rest, &mut open).unwrap_or(&[]);
        held = line(open.as_slice(), &mut file, held);
    }
}

// Room for the text, of which a caller knows the length alone.
fn room() -> [u8; 524288]
    ensures { 524288 ≡ length result }
{
    [0; 524288]
}

fn main() {
    let mut text = room();
    let n = io::read_full(0, &mut text);
    lines(&text[..n]);
}
