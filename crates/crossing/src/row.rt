// A row of the tables, which crosses as numbers: put down one a word, and taken up again where each fits its field.
#![tactic(auto, unfolding(crate::specs::Words::dim_words, crate::specs::Words::attr_words, crate::specs::Words::dim_of, crate::specs::Words::attr_of, crate::specs::Words::dim_in_fields, crate::specs::Words::attr_in_fields))]

ghost use Rattle.std.specs.Prelude.{◌≡◌, ℕ, ◌+◌, ◌*◌, ◌≤◌, ◌<◌, Bool, List, length, get_or};
ghost use Rattle.bigendian.specs.Lists.{tab};
ghost use Rattle.std.specs.List.{flat_map};
ghost use Rattle.crossing.specs.Words.{word_at, dim_words, attr_words, var_words, dim_of, attr_of, var_of, dim_in_fields, attr_in_fields, var_in_fields};
ghost use Rattle.crossing.specs.Inner.Taken.{when, ids_fit, part, Taken};
ghost use Rattle.crossing.specs.Inner.Rows.{wide-dim, wide-attr, wide-var, dim-inner, attr-inner, var-inner};

use grammar::tables::{Attr, Dim, Var};

pub(crate) trait Row: Copy {
    // How many numbers it takes.
    const WORDS: usize;

    ghost WORDS: { ℕ };

    // Its numbers; the row that numbers say from a place on; whether they fit its fields.
    ghost numbers: { Self → List ℕ };

    ghost said: { List ℕ → ℕ → Self };

    ghost in_fields: { Self → Bool };

    fn put(self, out: &mut [u64])
        requires { length out.old ≡ WORDS }
        ensures { out.new ≡ numbers self };

    fn take(words: &[u64]) -> Option<Self>
        requires { length words.now ≡ WORDS }
        ensures { result ≡ when (in_fields (said words.now 0)) (said words.now 0) };

    ghost wide: { (row : Self) → length (numbers row) ≡ WORDS };

    // A row in a part of the words is that of the words themselves.
    ghost inner: { (s : List ℕ) (at n i : ℕ) → i + WORDS ≤ n → said (part s at n) i ≡ said s (at + i) };
}

impl Row for Dim {
    const WORDS: usize = 3;

    ghost WORDS = { 3 };

    ghost numbers = { dim_words };

    ghost said = { dim_of };

    ghost in_fields = { dim_in_fields };

    fn put(self, out: &mut [u64]) {
        out[0] = self.name as u64;
        out[1] = self.chars as u64;
        out[2] = self.length as u64;
    }

    fn take(words: &[u64]) -> Option<Dim> {
        Some(Dim {
            name: words[0] as usize,
            chars: u32::try_from(words[1]).ok()?,
            length: u32::try_from(words[2]).ok()?,
        })
    }

    ghost wide = { wide-dim };

    ghost inner = { dim-inner };
}

impl Row for Attr {
    const WORDS: usize = 5;

    ghost WORDS = { 5 };

    ghost numbers = { attr_words };

    ghost said = { attr_of };

    ghost in_fields = { attr_in_fields };

    fn put(self, out: &mut [u64]) {
        out[0] = self.name as u64;
        out[1] = self.chars as u64;
        out[2] = self.code as u64;
        out[3] = self.count as u64;
        out[4] = self.values as u64;
    }

    fn take(words: &[u64]) -> Option<Attr> {
        Some(Attr {
            name: words[0] as usize,
            chars: u16::try_from(words[1]).ok()?,
            code: u16::try_from(words[2]).ok()?,
            count: u32::try_from(words[3]).ok()?,
            values: words[4] as usize,
        })
    }

    ghost wide = { wide-attr };

    ghost inner = { attr-inner };
}

fn put_ids(ids: &[u32; 8], out: &mut [u64])
    requires { length out.old ≡ 8 }
    ensures { out.new ≡ tab (λ k. get_or ids.now k 0) 8 }
{
    // A loop over numbers: an adaptor hands out `Option<&T>`, which is laid out otherwise in wasm32.
    for k in 0..8 {
        out[k] = ids[k] as u64;
    }
}

fn take_ids(words: &[u64]) -> Option<[u32; 8]>
    requires { length words.now ≡ 8 }
    ensures { result ≡ when (ids_fit words.now) (tab (word_at words.now) 8) }
{
    let mut ids = [0; 8];
    for k in 0..8 {
        ids[k] = u32::try_from(words[k]).ok()?;
    }
    Some(ids)
}

impl Row for Var {
    const WORDS: usize = 16;

    ghost WORDS = { 16 };

    ghost numbers = { var_words };

    ghost said = { var_of };

    ghost in_fields = { var_in_fields };

    fn put(self, out: &mut [u64]) {
        let ids = self.ids;
        out[0] = self.name as u64;
        out[1] = self.chars as u64;
        out[2] = self.rank as u64;
        out[3] = self.first as u64;
        out[4] = self.attrs as u64;
        out[5] = self.code as u64;
        out[6] = self.vsize;
        out[7] = self.begin;
        put_ids(&ids, &mut out[8..16]);
    }

    fn take(words: &[u64]) -> Option<Var> {
        Some(Var {
            name: words[0] as usize,
            chars: u32::try_from(words[1]).ok()?,
            rank: u8::try_from(words[2]).ok()?,
            first: u8::try_from(words[3]).ok()?,
            attrs: u8::try_from(words[4]).ok()?,
            code: u8::try_from(words[5]).ok()?,
            vsize: words[6],
            begin: words[7],
            ids: take_ids(&words[8..16])?,
        })
    }

    ghost wide = { wide-var };

    ghost inner = { var-inner };
}

// Rows put down one after the other.
pub(crate) fn store_rows<R: Row>(rows: &[R], out: &mut [u64])
    requires { length out.old ≡ R.WORDS * length rows.now }
    ensures { out.new ≡ flat_map R.numbers rows.now }
{
    for i in 0..rows.len() {
        let at = i * R::WORDS;
        rows[i].put(&mut out[at..at + R::WORDS]);
    }
}

// Rows taken up, each where its numbers stand; or nothing, where a number does not fit its field.
pub(crate) fn load_rows<R: Row>(words: &[u64], rows: &mut [R]) -> Option<()>
    requires { length words.now ≡ R.WORDS * length rows.old }
    ensures { Taken (length rows.old) (λ k. R.in_fields (R.said words.now (R.WORDS * k))) (λ k. R.said words.now (R.WORDS * k)) result rows.new }
{
    for i in 0..rows.len() {
        let at = i * R::WORDS;
        rows[i] = R::take(&words[at..at + R::WORDS])?;
    }
    Some(())
}
