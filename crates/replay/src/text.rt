// Numbers as text.
ghost use Rattle.std.specs.Prelude.{◌<◌, ◌≤◌};

pub fn wide(b: u8) -> u64
    ensures { result < 256 }
{
    b as u64
}

pub fn least(a: usize, b: usize) -> usize
    ensures { (result ≤ a) × (result ≤ b) }
{
    if a < b { a } else { b }
}

// The number `n` with the digit `c` after it, without what lies above 19 digits.
fn with_digit(n: u64, c: u8) -> u64 {
    if !c.is_ascii_digit() {
        return n;
    }
    n % 1_000_000_000_000_000_000 * 10 + u64::from(c - b'0')
}

// Which of four numbers goes on after the character `c`; the last goes on where there are more.
fn field_after(field: usize, c: u8) -> usize
    requires { field < 4 }
    ensures { result < 4 }
{
    if c == b' ' { (field + 1).min(3) } else { field }
}

// The numbers of the text; those that it does not have are 0.
pub fn numbers(text: &[u8]) -> [u64; 4] {
    let mut out = [0u64; 4];
    let mut field = 0;
    for &c in text {
        field = field_after(field, c);
        out[field] = with_digit(out[field], c);
    }
    out
}

// Writes a number that others follow on its line.
pub fn show_number(n: u64) {
    io::print_decimal(1, n);
    io::write_all(1, b" ");
}

// Writes the last number of a line.
pub fn show_last(n: u64) {
    io::print_decimal(1, n);
    io::write_all(1, b"\n");
}
