// A hexadecimal digit.
ghost use Rattle.std.specs.Prelude.{◌≡◌, ◌<◌, MatchOption};
ghost use Rattle.hexlines.specs.Digit.{worth};

// What the digit of either case is worth, or that it is none.
#[tactic(auto, unfolding(crate::specs::Digit::worth))]
pub(crate) fn worth(c: u8) -> Option<u8>
    ensures { MatchOption result (worth c ≡ 16) (λ w. (w ≡ worth c) × (w < 16)) }
{
    match c {
        b'0'..=b'9' => Some(c - b'0'),
        b'A'..=b'F' => Some(c - b'A' + 10),
        b'a'..=b'f' => Some(c - b'a' + 10),
        _ => None,
    }
}
