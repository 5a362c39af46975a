// Names and numbers of variables. A name is a part of the caller's text, told by where it starts and how many bytes it has.
ghost use Rattle.lookup.specs.Lookup.{find_var, name_of};
ghost use Rattle.outputs.specs.Outputs.{TellsNumber, TellsName};
ghost use Rattle.exports.specs.Reader.{of_tables};

// The number of the first variable of a name.
#[unsafe(no_mangle)]
pub extern "C" fn fungal_find_var(tables: &[u64], text: &[u8], name: &[u8], number: &mut u64) -> u8
    ensures { TellsNumber (of_tables tables.now (λ t. find_var text.now t name.now)) result number.old number.new }
{
    exports::names::fungal_find_var(tables, text, name, number)
}

// The name of the variable `i`.
#[unsafe(no_mangle)]
pub extern "C" fn fungal_var_name(
    tables: &[u64],
    text: &[u8],
    i: u64,
    at: &mut u64,
    chars: &mut u64,
) -> u8
    ensures { TellsName (of_tables tables.now (λ t. name_of text.now t i)) result at.old at.new chars.old chars.new }
{
    exports::names::fungal_var_name(tables, text, i, at, chars)
}
