// A variable whose numbers were tested, for the places of its values.
ghost use Rattle.reads.specs.Inner.Bounded.{Bounded};

use found::variable::Spread;

#[derive(Clone, Copy)]
pub struct Kept {
    pub spread: Spread,
    ghost bounded: { Bounded spread },
}
