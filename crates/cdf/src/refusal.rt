// Why a header, a read or a request is refused.
ghost use Rattle.std.specs.Prelude.{◌≡◌};
ghost use Rattle.cdf.specs.Refusals.{number};

// The rows of document 01's table of answer numbers, but for 0, accepted; each with its number.
#[derive(Clone, Copy, Debug, PartialEq, Eq, Hash)]
pub enum Refusal {
    // the header goes on past the prefix, which is shorter than the file
    Unfinished = 1,
    // the header goes on past the file
    Truncated = 2,
    NotCdf = 3,
    Version = 4,
    WordRange = 5,
    NotUtf8 = 6,
    Padding = 7,
    TypeCode = 8,
    ListStart = 9,
    Capacity = 10,
    Model = 11,
    Sizes = 12,
    // an open count: the division leaves a rest, or the file ends below the smallest record begin
    Rest = 13,
    SizeBelowRecords = 14,
    Ends = 15,
    NoVariable = 16,
    OtherType = 17,
    NoRecord = 18,
    NoElement = 19,
    Window = 20,
    FileSize = 21,
    OutputRoom = 22,
    Tables = 23,
    BeginInHeader = 24,
    BeginTooFar = 25,
}

impl Refusal {
    // The number in the table.
    pub fn number(self) -> u8
        ensures { result ≡ number self }
    {
        self as u8
    }
}

// The refusal of a header, and its place in the bytes.
#[derive(Clone, Copy, Debug, PartialEq, Eq, Hash)]
pub struct Stop {
    pub why: Refusal,
    pub place: usize,
}

// A refusal that has no place of its own is told at 0.
impl From<Refusal> for Stop {
    ghost from_gives = { λ k s. s ≡ record { why = k; place = 0 } };

    fn from(why: Refusal) -> Stop {
        Stop { why, place: 0 }
    }
}
