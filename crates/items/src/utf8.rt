// Well-formed UTF-8, by table 3-7 of the Unicode Standard.
ghost use Rattle.std.specs.Prelude.{◌≡◌};
ghost use Rattle.items.specs.Utf8.{sequences, opening, after, utf8};

// What is due in a sequence that has begun: `more` bytes, the next of them from `low` to `high`.
#[derive(Clone, Copy, Debug, PartialEq, Eq, Hash)]
pub struct Due {
    pub more: u8,
    pub low: u8,
    pub high: u8,
}

fn expect(more: u8, low: u8, high: u8) -> Option<Due>
    ensures { result ≡ Some (record { more = more; low = low; high = high }) }
{
    Some(Due { more, low, high })
}

// The first byte of a sequence: the rows of the table, or none that has it.
#[tactic(auto, unfolding(crate::specs::Utf8::opening))]
fn begun(b: u8) -> Option<Due>
    ensures { result ≡ opening sequences b }
{
    match b {
        0x00..=0x7F => expect(0, 0x80, 0xBF),
        0xC2..=0xDF => expect(1, 0x80, 0xBF),
        0xE0 => expect(2, 0xA0, 0xBF),
        0xE1..=0xEC => expect(2, 0x80, 0xBF),
        0xED => expect(2, 0x80, 0x9F),
        0xEE..=0xEF => expect(2, 0x80, 0xBF),
        0xF0 => expect(3, 0x90, 0xBF),
        0xF1..=0xF3 => expect(3, 0x80, 0xBF),
        0xF4 => expect(3, 0x80, 0x8F),
        _ => None,
    }
}

// What is due after a byte more, or that it doesn't fit.
#[tactic(auto, unfolding(crate::specs::Utf8::after))]
fn after(due: Due, b: u8) -> Option<Due>
    ensures { result ≡ after due b }
{
    if due.more == 0 {
        return begun(b);
    }
    if b < due.low || due.high < b {
        return None;
    }
    expect(due.more - 1, 0x80, 0xBF)
}

// Whether all the bytes of `text` are well-formed sequences.
pub fn is_utf8(text: &[u8]) -> bool
    ensures { result ≡ utf8 text.now }
{
    let mut due = Due {
        more: 0,
        low: 0x80,
        high: 0xBF,
    };
    for b in text {
        match after(due, *b) {
            Some(next) => due = next,
            None => return false,
        }
    }
    due.more == 0
}
