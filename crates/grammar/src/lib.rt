// The grammar of a header: its tables, its three lists, and the whole from left to right.
#![tactic(auto)]

pub mod tables; // tables.rt: the tables and their capacities
pub mod dims; // dims.rt: the list of dimensions
pub mod attrs; // attrs.rt: attributes, and the list of global ones
pub mod vars; // vars.rt: the list of variables
pub mod whole; // whole.rt: the header from its first byte to its last list
