// The static library over `byvalue`: each function that C calls, with the clauses of the function that it calls.
#![tactic(auto)]

ghost use Rattle.cdf.specs.Step.{Leaves, got};
ghost use Rattle.decode.specs.Decoded.{float, double};
ghost use Rattle.reads.specs.Reads.{whole_from};

// All floats of a fixed variable that has `count` of them from the file's position `begin` on; `window` starts at `start`.
#[unsafe(no_mangle)]
pub extern "C" fn fungal_values_f32(
    begin: u64,
    count: u64,
    window: &[u8],
    start: u64,
    out: &mut [f32],
) -> u8
    ensures { Leaves out.old (whole_from float 5 (got (record { begin = begin; records = 1; step = 0; chunk = count; width = 4; code = 5 }) 0) window.now start out.old) result out.new }
{
    byvalue::fungal_values_f32(begin, count, window, start, out)
}

// The same of doubles.
#[unsafe(no_mangle)]
pub extern "C" fn fungal_values_f64(
    begin: u64,
    count: u64,
    window: &[u8],
    start: u64,
    out: &mut [f64],
) -> u8
    ensures { Leaves out.old (whole_from double 6 (got (record { begin = begin; records = 1; step = 0; chunk = count; width = 8; code = 6 }) 0) window.now start out.old) result out.new }
{
    byvalue::fungal_values_f64(begin, count, window, start, out)
}
