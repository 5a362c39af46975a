// Name lookup, over the tables of a header and the bytes that its names stand in.
#![tactic(auto)]

pub mod names; // names.rt: a variable by its name, a name by its variable's number
