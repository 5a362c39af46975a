// What the items of a list are made of, on the words of the format: names, types and values.
#![tactic(auto)]

pub mod utf8; // utf8.rt: well-formed UTF-8
pub mod name; // name.rt: names
pub mod types; // types.rt: data types
pub mod values; // values.rt: the bytes of an attribute's values
