// Big-endian numbers.
#![tactic(auto)]

pub mod number; // number.rt: four and eight bytes
