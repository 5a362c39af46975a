// Names and numbers of variables. A name is a part of the caller's text, told by where it starts and how many bytes it has.
#![tactic(auto, unfolding(cdf::specs::Step::bind))]

ghost use Rattle.std.specs.Prelude.{◌≡◌};
ghost use Rattle.cdf.specs.Refusals.{of_result};
ghost use Rattle.lookup.specs.Lookup.{find_var, name_of};
ghost use Rattle.outputs.specs.Outputs.{TellsNumber, TellsName};
ghost use Rattle.exports.specs.Reader.{of_tables};

use cdf::refusal::Refusal;
use crossing::load::load_tables;
use lookup::names::{find_name, find_var};
use model::names::Span;

fn found(tables: &[u64], text: &[u8], name: &[u8]) -> Result<usize, Refusal>
    ensures { of_result result ≡ of_tables tables.now (λ t. find_var text.now t name.now) }
{
    let t = load_tables(tables)?;
    find_var(text, &t, name)
}

// The number of the first variable of a name.
pub fn fungal_find_var(tables: &[u64], text: &[u8], name: &[u8], number: &mut u64) -> u8
    ensures { TellsNumber (of_tables tables.now (λ t. find_var text.now t name.now)) result number.old number.new }
{
    match found(tables, text, name) {
        Err(k) => k.number(),
        Ok(i) => {
            *number = i as u64;
            0
        }
    }
}

fn named(tables: &[u64], text: &[u8], i: u64) -> Result<Span, Refusal>
    ensures { of_result result ≡ of_tables tables.now (λ t. name_of text.now t i) }
{
    let t = load_tables(tables)?;
    find_name(text, &t, i as usize)
}

// The name of the variable `i`.
pub fn fungal_var_name(tables: &[u64], text: &[u8], i: u64, at: &mut u64, chars: &mut u64) -> u8
    ensures { TellsName (of_tables tables.now (λ t. name_of text.now t i)) result at.old at.new chars.old chars.new }
{
    match named(tables, text, i) {
        Err(k) => k.number(),
        Ok(span) => {
            *at = span.at as u64;
            *chars = span.chars as u64;
            0
        }
    }
}
