// A variable by its name, and a name by its variable's number.
#![tactic(auto, unfolding(cdf::specs::Step::test, crate::specs::Lookup::names_inside, crate::specs::Lookup::find_var, crate::specs::Lookup::name_of))]

ghost use Rattle.std.specs.Prelude.{◌≡◌, ◌+◌, ◌≤◌, length, ◌&&◌, eqb, leb};
ghost use Rattle.cdf.specs.Refusals.{of_result};
ghost use Rattle.items.specs.Name.{same_bytes};
ghost use Rattle.lookup.specs.Lookup.{names_inside, find_var, name_of, IsName};

use cdf::refusal::Refusal;
use grammar::tables::{MAX_VARS, Tables, Var};
use model::names::{Named, Span};
use model::rows::vars;

// Whether a variable's name lies inside the buffer.
fn is_inside(s: &[u8], v: &Var) -> bool
    ensures { result ≡ leb (v.now.name + v.now.chars) (length s.now) }
{
    v.name <= s.len() && v.chars as usize <= s.len() - v.name
}

// Whether there are no more variables than rows, and their names lie inside the buffer.
fn names_inside(s: &[u8], t: &Tables) -> bool
    ensures { result ≡ names_inside s.now t.now }
{
    if MAX_VARS < t.nvars {
        return false;
    }
    // A loop: an adaptor hands out `Option<&T>`, which is laid out otherwise in wasm32.
    for v in vars(t) {
        if !is_inside(s, v) {
            return false;
        }
    }
    true
}

// Whether a variable's name is `wanted`.
fn is_named(s: &[u8], v: &Var, wanted: &[u8]) -> bool
    requires { v.now.name + v.now.chars ≤ length s.now }
    ensures { result ≡ (eqb v.now.chars (length wanted.now) && same_bytes s.now v.now.name wanted.now 0 v.now.chars) }
{
    let end = v.name + v.chars as usize;
    &s[v.name..end] == wanted
}

// The number of the first variable named `name`, or the refusal 23 or 16.
pub fn find_var(s: &[u8], t: &Tables, name: &[u8]) -> Result<usize, Refusal>
    ensures { of_result result ≡ find_var s.now t.now name.now }
{
    if !names_inside(s, t) {
        return Err(Refusal::Tables);
    }
    for i in 0..t.nvars {
        if is_named(s, &t.vars[i], name) {
            return Ok(i);
        }
    }
    Err(Refusal::NoVariable)
}

// Where the name of the variable `i` stands, or the refusal 23 or 16.
pub fn find_name(s: &[u8], t: &Tables, i: usize) -> Result<Span, Refusal>
    ensures { of_result result ≡ name_of s.now t.now i }
{
    if !names_inside(s, t) {
        return Err(Refusal::Tables);
    }
    if t.nvars <= i {
        return Err(Refusal::NoVariable);
    }
    Ok(t.vars[i].span())
}

// The name of the variable `i`: the part of `s` that holds it, or the empty part in a refusal.
pub fn var_name<'a>(s: &'a [u8], t: &Tables, i: usize) -> &'a [u8]
    ensures { IsName s.entry t.now i result }
{
    let Ok(name) = find_name(s, t, i) else {
        return &s[0..0];
    };
    let end = name.at + name.chars as usize;
    &s[name.at..end]
}
