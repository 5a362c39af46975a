// Text that grows in a buffer with room for `N` bytes.
ghost use Rattle.std.specs.Prelude.{◌≡◌, ◌+◌, ◌≤◌, ◌++◌, length};
ghost use Rattle.arrayvec.specs.ArrayVec.{array_vec_len};
ghost use Rattle.hexlines.specs.Text.{decimal, field, field_text};

use arrayvec::ArrayVec;

// Puts `more` behind the text.
pub fn put_text<const N: usize>(out: &mut ArrayVec<u8, N>, more: &[u8])
    requires { array_vec_len out.old + length more.now ≤ N }
    ensures { out.new.items ≡ out.old.items ++ more.now }
{
    out.try_extend_from_slice(more).unwrap();
}

// Puts `n` in decimal behind the text.
fn put_decimal<const N: usize>(out: &mut ArrayVec<u8, N>, n: u64)
    requires { array_vec_len out.old + 20 ≤ N }
    ensures text { out.new.items ≡ out.old.items ++ decimal n }
    ensures fits { array_vec_len out.new ≤ array_vec_len out.old + 20 }
{
    let mut digits = [0u8; 20];
    let k = io::decimal(n, &mut digits);
    put_text(out, &digits[..k]);
}

// Puts `n` in decimal and the character `c` behind the text.
#[tactic(auto, unfolding(crate::specs::Text::field))]
fn put_field<const N: usize>(out: &mut ArrayVec<u8, N>, n: u64, c: u8)
    requires { array_vec_len out.old + 21 ≤ N }
    ensures text { out.new.items ≡ out.old.items ++ field n c }
    ensures fits { array_vec_len out.new ≤ array_vec_len out.old + 21 }
{
    put_decimal(out, n);
    out.push(c);
}

// Puts the fields of an answer behind the text.
#[tactic(auto, unfolding(crate::specs::Text::field_text))]
pub fn put_fields<const N: usize>(
    out: &mut ArrayVec<u8, N>,
    number: u64,
    place: u64,
    records: u64,
    end: u64,
)
    requires { array_vec_len out.old + 84 ≤ N }
    ensures text { out.new.items ≡ out.old.items ++ field_text number place records end }
    ensures fits { array_vec_len out.new ≤ array_vec_len out.old + 84 }
{
    put_field(out, number, b' ');
    put_field(out, place, b' ');
    put_field(out, records, b' ');
    put_field(out, end, b'\n');
}
