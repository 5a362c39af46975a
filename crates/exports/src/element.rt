// One element of a variable that a caller keeps.
ghost use Rattle.reads.specs.Element.{bits_from};
ghost use Rattle.outputs.specs.Outputs.{TellsElement};
ghost use Rattle.exports.specs.Variable.{taken};

use crate::variable::taken;
use reads::bits::read_bits;
use reads::window::Window;

// Element `e` of record `r`: the code of its type, and its bits.
pub fn fungal_read_element(
    var: &[u64],
    window: &[u8],
    start: u64,
    r: u64,
    e: u64,
    code: &mut u64,
    bits: &mut u64,
) -> u8
    ensures { TellsElement (bits_from (taken var.now) window.now start r e) result code.old code.new bits.old bits.new }
{
    let window = Window {
        bytes: window,
        start,
    };
    match read_bits(taken(var), window, r, e) {
        Err(k) => k.number(),
        Ok(x) => {
            *code = x.code as u64;
            *bits = x.bits;
            0
        }
    }
}
