// The variable that a read asks for, found once in the tables of a header.
#![tactic(auto)]

pub mod tested; // tested.rt: tables are tested first
pub mod variable; // variable.rt: a variable's numbers
