// Names of one list: none empty, none twice.
ghost use Rattle.std.specs.Prelude.{◌≡◌, ◌+◌, length, get_or};
ghost use Rattle.std.specs.List.{list_any};
ghost use Rattle.items.specs.Name.{same_bytes};
ghost use Rattle.model.specs.Model.{same_name, distinct};
ghost use Rattle.model.specs.Inner.Rows.{nth_span, new_after};
ghost use Rattle.model.specs.declared.names.Span.{Span};

use grammar::tables::{Attr, Dim, Var};

// Where a name stands: its place and the number of its bytes.
#[derive(Clone, Copy)]
pub struct Span {
    pub at: usize,
    pub chars: u32,
}

// A row of tables, which has a name.
pub trait Named {
    ghost span_of: { Self → Span };

    fn span(&self) -> Span
        ensures { result ≡ span_of self.now };
}

impl Named for Dim {
    ghost span_of = { λ d. record { at = d.name; chars = d.chars } };

    fn span(&self) -> Span {
        Span {
            at: self.name,
            chars: self.chars,
        }
    }
}

impl Named for Var {
    ghost span_of = { λ v. record { at = v.name; chars = v.chars } };

    fn span(&self) -> Span {
        Span {
            at: self.name,
            chars: self.chars,
        }
    }
}

impl Named for Attr {
    ghost span_of = { λ a. record { at = a.name; chars = a.chars } };

    fn span(&self) -> Span {
        Span {
            at: self.name,
            chars: self.chars as u32,
        }
    }
}

// The byte `i` places after `at`, or 0 past the end.
fn byte_at(s: &[u8], at: usize, i: usize) -> u8
    ensures { result ≡ get_or s.now (at + i) 0 }
{
    let place = at.saturating_add(i);
    if place < s.len() { s[place] } else { 0 }
}

// Whether the `n` bytes from `a` and from `b` are the same: as parts of the text where they lie inside it, as those of a header do.
fn same_bytes(s: &[u8], a: usize, b: usize, n: usize) -> bool
    ensures { result ≡ same_bytes s.now a s.now b n }
{
    let len = s.len();
    // `b` first: where it is the same name in each turn of a loop, so is its test
    if b <= len && n <= len - b && a <= len && n <= len - a {
        return s[a..a + n] == s[b..b + n];
    }
    (0..n).all(|i| byte_at(s, a, i) == byte_at(s, b, i))
}

// Whether two names have the same bytes.
#[tactic(auto, unfolding(crate::specs::Model::same_name))]
fn same_name(s: &[u8], a: Span, b: Span) -> bool
    ensures { result ≡ same_name s.now a b }
{
    a.chars == b.chars && same_bytes(s, a.at, b.at, a.chars as usize)
}

// Whether one of the rows has the name.
fn taken<R: Named>(s: &[u8], rows: &[R], name: Span) -> bool
    ensures { result ≡ list_any (λ r. same_name s.now (R.span_of r) name) rows.now }
{
    // A loop: an adaptor hands out `Option<&T>`, which is laid out otherwise in wasm32.
    for row in rows {
        if same_name(s, row.span(), name) {
            return true;
        }
    }
    false
}

// Whether a name is not empty and none of the rows before it has it.
fn is_new<R: Named>(s: &[u8], before: &[R], name: Span) -> bool
    ensures { result ≡ new_after s.now R.span_of before.now name }
{
    0 < name.chars && !taken(s, before, name)
}

// Whether no row's name is empty or stands before.
pub(crate) fn distinct<R: Named>(s: &[u8], rows: &[R]) -> bool
    ensures { result ≡ distinct s.now (nth_span R.span_of rows.now) (length rows.now) }
{
    for i in 0..rows.len() {
        if !is_new(s, &rows[..i], rows[i].span()) {
            return false;
        }
    }
    true
}
