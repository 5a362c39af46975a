// The header reader: the grammar, then the rules, in the order of 01.
#![tactic(auto)]

pub mod reader; // reader.rt: the whole answer
