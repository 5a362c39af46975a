// Words of the header: four bytes, or eight for a begin of version 2.
#![tactic(auto, unfolding(crate::specs::Step::bind, crate::specs::Step::test, crate::specs::Step::unfinished, crate::specs::Word::word, crate::specs::Word::non_negative, crate::specs::Word::open_count, crate::specs::Word::nelems, crate::specs::Word::signed))]

ghost use Rattle.cdf.specs.Form.{form};
ghost use Rattle.cdf.specs.Word.{word, non_negative, open_count, nelems, signed};
ghost use Rattle.cdf.specs.Inner.Answers.{Steps};

use crate::place::Place;
use crate::refusal::Refusal;
use crate::step::Step;
use bigendian::number::{be32, be64};

// The count word that leaves the number of records open; also a vsize that is no number word.
pub const INDETERMINATE: u64 = 0xffff_ffff;

// The first word whose sign bit is set.
const FIRST_NEGATIVE: u32 = 0x8000_0000;

fn four_bytes(place: Place) -> Step<u32>
    ensures { Steps place.entry (word 4) result }
{
    let next = place.skip(4)?;
    Ok((be32(place.bytes, place.at), next))
}

fn eight_bytes(place: Place) -> Step<u64>
    ensures { Steps place.entry (word 8) result }
{
    let next = place.skip(8)?;
    Ok((be64(place.bytes, place.at), next))
}

// A word from 0 to 2147483647.
pub fn parse_non_neg(place: Place) -> Step<u32>
    ensures { Steps place.entry (non_negative 4) result }
{
    let (v, next) = four_bytes(place)?;
    if v < FIRST_NEGATIVE {
        Ok((v, next))
    } else {
        Err(place.refuse(Refusal::WordRange))
    }
}

// A word from 0 to 2147483647, or the indeterminate one.
pub fn parse_open_count(place: Place) -> Step<u64>
    ensures { Steps place.entry (open_count 4) result }
{
    let (v, next) = four_bytes(place)?;
    let count = v as u64;
    if v < FIRST_NEGATIVE || count == INDETERMINATE {
        Ok((count, next))
    } else {
        Err(place.refuse(Refusal::WordRange))
    }
}

// A count or length of at most `capacity`.
pub fn parse_count(place: Place, capacity: u64) -> Step<u32>
    ensures { Steps place.entry (nelems capacity 4) result }
{
    let (v, next) = parse_non_neg(place)?;
    if v as u64 <= capacity {
        Ok((v, next))
    } else {
        Err(place.refuse(Refusal::Capacity))
    }
}

// A begin, as the 64 bits of the signed number: four bytes in version 1, else eight.
pub fn parse_offset(place: Place, version: u8) -> Step<u64>
    ensures { Steps place.entry (signed (form version).begin_bytes) result }
{
    if version != 1 {
        return eight_bytes(place);
    }
    let (v, next) = four_bytes(place)?;
    if v < FIRST_NEGATIVE {
        Ok((v as u64, next))
    } else {
        Ok((v as u64 + 0xffff_ffff_0000_0000, next))
    }
}
