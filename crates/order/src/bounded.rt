// Tables whose rows may be looked at.
ghost use Rattle.std.specs.Prelude.{◌≤◌};

use grammar::tables::Tables;

// Tables whose counts are within their rows, as the first test of them leaves them.
#[derive(Clone, Copy)]
pub(crate) struct Bounded<'a> {
    pub tables: &'a Tables,
    ghost dims: { tables.now.ndims ≤ 32 },
    ghost vars: { tables.now.nvars ≤ 64 },
    ghost attrs: { tables.now.nattrs ≤ 128 },
    ghost globals: { tables.now.globals ≤ tables.now.nattrs },
}
