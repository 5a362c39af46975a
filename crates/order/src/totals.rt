// The record count, where variables end, and the file's size.
ghost use Rattle.std.specs.Prelude.{◌≡◌};
ghost use Rattle.order.specs.Inner.Lengths.{header_length};
ghost use Rattle.order.specs.Inner.Tests.{sizes_tested, size_tested};

use grammar::tables::{MAX_POSITION, Tables};
use model::checked::Checked;
use sizes::count::record_count;
use sizes::records::{ends_hold, measure};

// Whether chunks, record size and ends are in range and the record count is the tables' own.
pub(crate) fn sizes_hold(t: Checked) -> bool
    ensures { result ≡ sizes_tested t.entry.tables.now }
{
    let Some(z) = measure(t.tables) else {
        return false;
    };
    match record_count(t, z) {
        Err(_) => false,
        Ok(n) => n == t.tables.count && ends_hold(z, n),
    }
}

// Whether the file's size is from the header's length to 2^62.
pub(crate) fn size_holds(t: &Tables, length: u64) -> bool
    requires { length ≡ header_length t.now }
    ensures { result ≡ size_tested t.now }
{
    length <= t.size && t.size <= MAX_POSITION
}
