// The header reader.
ghost use Rattle.std.specs.Prelude.{◌≡◌, ℕ};
ghost use Rattle.grammar.specs.Inner.Within.{Within};
ghost use Rattle.header.specs.Header.{header_of, judged, Conforms};
ghost use Rattle.header.specs.Inner.Answers.{counted};

use cdf::refusal::{Refusal, Stop};
use cdf::version::Admitted;
use grammar::tables::{MAX_POSITION, Tables, blank};
use grammar::whole::parse_header;
use model::checked::Checked;
use model::rules::model_holds;
use sizes::count::record_count;
use sizes::records::{ends_hold, measure};

// A header that is accepted: where it ends, and its tables.
#[derive(Clone, Copy)]
pub struct Header {
    pub end: usize,
    pub tables: Tables,
}

// The whole answer: the number and place of a refusal, with the end 0 and blank tables; or 0, and what was read.
#[derive(Clone, Copy)]
pub struct HeaderAnswer {
    pub number: u8,
    pub place: usize,
    pub end: usize,
    pub tables: Tables,
}

// What a result of `read_header` answers.
#[tactic(auto, unfolding(crate::specs::Header::refusal))]
pub fn answer(read: Result<Header, Stop>) -> HeaderAnswer
    ensures { result ≡ header_of read }
{
    match read {
        Ok(h) => HeaderAnswer {
            number: 0,
            place: 0,
            end: h.end,
            tables: h.tables,
        },
        Err(stop) => HeaderAnswer {
            number: stop.why.number(),
            place: stop.place,
            end: 0,
            tables: blank(),
        },
    }
}

// The record count of tables that were read, by the rules 11, 12, 14, 13 and 15.
fn judged(s: &[u8], t: &Tables) -> Result<u64, Refusal>
    requires { Within t.now }
    ensures { (end : ℕ) → counted t.now end result ≡ judged s.now t.now end }
{
    if !model_holds(s, t) {
        return Err(Refusal::Model);
    }
    let Some(z) = measure(t) else {
        return Err(Refusal::Sizes);
    };
    let count = record_count(Checked { tables: t }, z)?;
    if !ends_hold(z, count) {
        return Err(Refusal::Ends);
    }
    Ok(count)
}

// The header of a file of `size` bytes that starts with `prefix`, where its version is admitted.
pub fn read_header(prefix: &[u8], size: u64, admitted: Admitted) -> Result<Header, Stop>
    ensures { Conforms prefix.now size admitted result }
{
    if size < prefix.len() as u64 {
        return Err(Refusal::FileSize.into());
    }
    if MAX_POSITION < size {
        return Err(Refusal::FileSize.into());
    }
    let (mut tables, end) = parse_header(prefix, size, admitted)?;
    tables.count = judged(prefix, &tables)?;
    Ok(Header { end, tables })
}
