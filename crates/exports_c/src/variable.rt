// A variable that a caller keeps between reads.
ghost use Rattle.std.specs.Prelude.{◌≡◌};
ghost use Rattle.cdf.specs.Step.{Leaves, bind};
ghost use Rattle.found.specs.Sought.{sought};
ghost use Rattle.exports.specs.Reader.{of_tables};
ghost use Rattle.exports.specs.Variable.{placed};

#[unsafe(no_mangle)]
pub extern "C" fn fungal_variable_words() -> u64
    ensures { result ≡ 5 }
{
    exports::variable::fungal_variable_words()
}

// Finds the variable `i` in the tables and puts down its numbers, for reads of it.
#[unsafe(no_mangle)]
pub extern "C" fn fungal_place_var(tables: &[u64], i: u64, var: &mut [u64]) -> u8
    ensures { Leaves var.old (of_tables tables.now (λ t. bind (sought t i) (λ v _. placed var.old v))) result var.new }
{
    exports::variable::fungal_place_var(tables, i, var)
}
