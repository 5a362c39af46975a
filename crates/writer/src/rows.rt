// Rows of tables, put into an output as the format has them.
ghost use Rattle.std.specs.Prelude.{◌≡◌, ℕ, ◌+◌, ◌*◌, ◌≤◌, ◌<◌, List, ◌++◌, length, get_or};
ghost use Rattle.grammar.specs.declared.tables.Tables.{Tables};
ghost use Rattle.items.specs.Types.{size_of};
ghost use Rattle.rules.specs.Encode.{each};
ghost use Rattle.rules.specs.Rules.{spelled};
ghost use Rattle.writer.specs.Inner.Put.{Adds, Room};
ghost use Rattle.writer.specs.Inner.Parts.{start_bytes, dim_out, attr_out, shape_out, tail_out, var_out, AttrIn, VarIn};

use crate::output::Output;
use cdf::list::ATTRIBUTE_TAG;
use grammar::tables::{Attr, Dim, Tables, Var};
use items::types::DataType;

// What stands in the tables t, its names and values in the text.
pub(crate) trait Item {
    // Its bytes, and that what they need is there.
    ghost bytes: { List ℕ → Tables → Self → List ℕ };

    ghost IsThere: { List ℕ → Tables → Self → Type 0 };

    fn put(&self, out: &mut Output, text: &[u8], t: &Tables)
        requires there { IsThere text.now t.now self.now }
        requires room { Room out.old (bytes text.now t.now self.now) }
        ensures same { out.new.bytes.ghost_name ≡ out.old.bytes.ghost_name }
        ensures put { Adds out.old (bytes text.now t.now self.now) out.new };
}

// Items one after the other.
fn put_each<I: Item>(out: &mut Output, text: &[u8], t: &Tables, items: &[I])
    requires there { (i : ℕ) (x : _) → i < length items.now → x ≡ get_or items.now i x → I.IsThere text.now t.now x }
    requires room { Room out.old (each (I.bytes text.now t.now) items.now) }
    ensures same { out.new.bytes.ghost_name ≡ out.old.bytes.ghost_name }
    ensures put { Adds out.old (each (I.bytes text.now t.now) items.now) out.new }
{
    for item in items {
        item.put(out, text, t);
    }
}

// A list of items: absent, or its tag, their number and the items.
pub(crate) fn put_list<I: Item>(out: &mut Output, tag: u8, text: &[u8], t: &Tables, items: &[I])
    requires there { (i : ℕ) (x : _) → i < length items.now → x ≡ get_or items.now i x → I.IsThere text.now t.now x }
    requires room { Room out.old (start_bytes tag (length items.now) ++ each (I.bytes text.now t.now) items.now) }
    ensures same { out.new.bytes.ghost_name ≡ out.old.bytes.ghost_name }
    ensures put { Adds out.old (start_bytes tag (length items.now) ++ each (I.bytes text.now t.now) items.now) out.new }
{
    out.start(tag, items.len());
    put_each(out, text, t, items);
}

impl Item for Dim {
    ghost bytes = { λ s _ d. dim_out s d };

    ghost IsThere = { λ s _ d. d.name + d.chars ≤ length s };

    fn put(&self, out: &mut Output, text: &[u8], _t: &Tables) {
        out.name(text, self.name, self.chars as usize);
        out.word(self.length as u64);
    }
}

// The bytes of `count` values of the type of a code.
fn value_bytes(code: u64, count: u64) -> usize
    requires { (1 ≤ code) × (code ≤ 6) × (count < 4294967296) }
    ensures { result ≡ count * size_of code }
{
    (count * DataType::of_code(code).size_of()) as usize
}

impl Item for Attr {
    ghost bytes = { λ s _ a. attr_out s a };

    ghost IsThere = { λ s _ a. AttrIn s a };

    fn put(&self, out: &mut Output, text: &[u8], _t: &Tables) {
        let code = self.code as u64;
        let count = self.count as u64;
        out.name(text, self.name, self.chars as usize);
        out.word(code);
        out.word(count);
        out.padded(&text[self.values..self.values + value_bytes(code, count)]);
    }
}

// An id of a dimension.
impl Item for u32 {
    ghost bytes = { λ _ _ id. spelled 4 id };

    ghost IsThere = { λ _ _ _. Unit {0} };

    fn put(&self, out: &mut Output, _text: &[u8], _t: &Tables) {
        out.word(*self as u64);
    }
}

// A variable's name and dimensions.
fn put_shape(out: &mut Output, text: &[u8], t: &Tables, v: &Var)
    requires name { v.now.name + v.now.chars ≤ length text.now }
    requires rank { v.now.rank ≤ 8 }
    requires room { Room out.old (shape_out text.now v.now) }
    ensures same { out.new.bytes.ghost_name ≡ out.old.bytes.ghost_name }
    ensures put { Adds out.old (shape_out text.now v.now) out.new }
{
    let rank = v.rank as usize;
    out.name(text, v.name, v.chars as usize);
    out.word(rank as u64);
    put_each(out, text, t, &v.ids[..rank]);
}

// A variable's type, vsize and begin.
fn put_tail(out: &mut Output, version: u8, v: &Var)
    requires { Room out.old (tail_out version v.now) }
    ensures same { out.new.bytes.ghost_name ≡ out.old.bytes.ghost_name }
    ensures put { Adds out.old (tail_out version v.now) out.new }
{
    out.word(v.code as u64);
    out.word(v.vsize);
    out.begin(version, v.begin);
}

impl Item for Var {
    ghost bytes = { λ s t v. var_out s t.version t.attrs v };

    ghost IsThere = { λ s t v. VarIn s t.attrs v };

    fn put(&self, out: &mut Output, text: &[u8], t: &Tables) {
        let first = self.first as usize;
        let end = first + self.attrs as usize;
        put_shape(out, text, t, self);
        put_list(out, ATTRIBUTE_TAG, text, t, &t.attrs[first..end]);
        put_tail(out, t.version, self);
    }
}
