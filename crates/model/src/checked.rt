// Tables that rows may be read of.
ghost use Rattle.std.specs.Prelude.{◌≡◌, true};
ghost use Rattle.grammar.specs.Inner.Within.{Shaped};
ghost use Rattle.model.specs.Model.{ids_hold};

use grammar::tables::Tables;

// Tables whose counts and rows are within the capacities, and whose ids hold: what rule 11 leaves, and what a read tests first.
#[derive(Clone, Copy)]
pub struct Checked<'a> {
    pub tables: &'a Tables,
    ghost shaped: { Shaped tables.now },
    ghost ids: { ids_hold tables.now ≡ true },
}
