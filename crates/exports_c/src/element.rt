// One element of a variable that a caller keeps.
ghost use Rattle.reads.specs.Element.{bits_from};
ghost use Rattle.outputs.specs.Outputs.{TellsElement};
ghost use Rattle.exports.specs.Variable.{taken};

// Element `e` of record `r`: the code of its type, and its bits.
#[unsafe(no_mangle)]
pub extern "C" fn fungal_read_element(
    var: &[u64],
    window: &[u8],
    start: u64,
    r: u64,
    e: u64,
    code: &mut u64,
    bits: &mut u64,
) -> u8
    ensures { TellsElement (bits_from (taken var.now) window.now start r e) result code.old code.new bits.old bits.new }
{
    exports::element::fungal_read_element(var, window, start, r, e, code, bits)
}
