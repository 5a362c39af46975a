// Runs the words of the format on recorded inputs. A line of standard input is a letter for the
// word, a space and bytes in hexadecimal; it is written back, and after it a line for each cut of the
// bytes: the refusal's number and place, or 0 and the place after the word, and the value. The size
// is that of all the line's bytes. tests/leaves.py writes the inputs and what is expected.
#![tactic(auto)]

ghost use Rattle.std.specs.Prelude.{◌<◌, ◌≤◌, length};
ghost use Rattle.io.specs.Counts.{IsPrefixLen};

use cdf::list::{DIMENSION_TAG, parse_list_start};
use cdf::padding::parse_zero_padding;
use cdf::place::Place;
use cdf::refusal::Stop;
use cdf::step::Step;
use cdf::version::{Admitted, parse_magic_word, parse_version};
use cdf::word::{parse_non_neg, parse_offset, parse_open_count};
use items::name::parse_name_string;
use items::types::parse_data_type;
use items::values::parse_typed_data_elements;

#[derive(Clone, Copy)]
pub struct Answer {
    pub number: u8,
    pub place: usize,
    pub value: u64,
}

// The answer where a line has no bytes for what its word needs to be asked.
const NOTHING: Answer = Answer {
    number: 0,
    place: 0,
    value: 0,
};

fn read<T>(step: Step<T>) -> Answer
where
    u64: From<T>,
{
    match step {
        Ok((value, end)) => Answer {
            number: 0,
            place: end.at,
            value: u64::from(value),
        },
        Err(stop) => refused(stop),
    }
}

fn passed(step: Result<Place, Stop>) -> Answer {
    match step {
        Ok(end) => Answer {
            number: 0,
            place: end.at,
            value: 0,
        },
        Err(stop) => refused(stop),
    }
}

fn refused(stop: Stop) -> Answer {
    Answer {
        number: stop.why.number(),
        place: stop.place,
        value: 0,
    }
}

// The magic word and, after it, the version byte.
fn start(s: &[u8], size: u64, admitted: Admitted) -> Answer {
    match parse_magic_word(s, size) {
        Ok(place) => read(parse_version(place, admitted)),
        Err(stop) => refused(stop),
    }
}

fn kind(place: Place) -> Answer {
    read(parse_data_type(place).map(|(kind, end)| (kind.code(), end)))
}

// The padding after as many bytes as the first byte says.
fn padding(place: Place) -> Answer {
    match place.bytes.first() {
        Some(count) => passed(
            place
                .skip(1)
                .and_then(|at| parse_zero_padding(at, *count as u64)),
        ),
        None => NOTHING,
    }
}

// As many values as the first byte says, of the width that the second says.
fn values(place: Place) -> Answer {
    match place.bytes {
        [count, width, ..] => {
            let width = (*width as u64).min(8);
            passed(
                place
                    .skip(2)
                    .and_then(|at| parse_typed_data_elements(at, *count as u32, width)),
            )
        }
        _ => NOTHING,
    }
}

// What the word with the letter answers for the bytes `s` of a file of `size` bytes.
fn leaf(letter: u8, s: &[u8], size: u64) -> Answer {
    let place = Place::start(s, size);
    match letter {
        b'w' => read(parse_non_neg(place)),
        b'o' => read(parse_open_count(place)),
        b'b' => read(parse_offset(place, 1)),
        b'B' => read(parse_offset(place, 2)),
        b'm' => start(s, size, admitted(true, true)),
        b'c' => start(s, size, admitted(true, false)),
        b'd' => start(s, size, admitted(false, true)),
        b'e' => start(s, size, admitted(false, false)),
        b'l' => read(parse_list_start(place, DIMENSION_TAG, 32)),
        b'n' => read(parse_name_string(place)),
        b't' => kind(place),
        b'p' => padding(place),
        _ => values(place),
    }
}

fn admitted(classic: bool, offset64: bool) -> Admitted {
    Admitted { classic, offset64 }
}

// The bytes before the first cut: those that say a count or a width.
fn fixed(letter: u8) -> usize
    ensures { result ≤ 2 }
{
    match letter {
        b'p' => 1,
        b'v' => 2,
        _ => 0,
    }
}

fn print(a: Answer) {
    io::print_decimal(1, a.number as u64);
    io::write_all(1, b" ");
    io::print_decimal(1, a.place as u64);
    io::write_all(1, b" ");
    io::print_decimal(1, a.value);
    io::write_all(1, b"\n");
}

fn cuts(letter: u8, s: &[u8])
    requires { length s.now ≤ 512 }
{
    for n in fixed(letter)..s.len() + 1 {
        print(leaf(letter, &s[..n], s.len() as u64));
    }
}

// The value of a hexadecimal digit in lower case.
fn digit(c: u8) -> u8
    ensures { result < 16 }
{
    match c {
        b'0'..=b'9' => c - b'0',
        b'a'..=b'f' => c - b'a' + 10,
        _ => 0,
    }
}

// Puts the bytes that `text` spells at the start of `out`, as many as fit, and answers how many.
fn decode(text: &[u8], out: &mut [u8]) -> usize
    ensures { IsPrefixLen result out.new × (result ≤ 512) }
{
    let n = (text.len() / 2).min(512).min(out.len());
    for i in 0..n {
        out[i] = digit(text[2 * i]) * 16 + digit(text[2 * i + 1]);
    }
    n
}

// A line: a letter, a space, bytes in hexadecimal.
fn line(text: &[u8]) {
    io::write_all(1, text);
    io::write_all(1, b"\n");
    if text.len() < 2 {
        return;
    }
    let letter = text[0];
    let mut bytes = [0u8; 512];
    let n = decode(&text[2..], &mut bytes);
    cuts(letter, &bytes[..n]);
}

// Each line of the text, the last one with or without its end.
fn lines(text: &[u8]) {
    for part in text.split_inclusive(|b| *b == b'\n') {
        line(part.strip_suffix(b"\n").unwrap_or(part));
    }
}

fn main() {
    let mut text = [0u8; 262144];
    let n = io::read_full(0, &mut text);
    lines(&text[..n]);
}
