// Reads of values, from the tables of a header and a window: bytes that start at a stated position of the file.
#![tactic(auto)]

pub mod window; // window.rt: bytes of the file, and whether they hold some
pub mod bounded; // bounded.rt: a variable whose numbers were tested
pub mod kept; // kept.rt: that test, of what a caller keeps between reads
pub mod place; // place.rt: where its elements stand in the window
pub mod element; // element.rt: one element
pub mod bits; // bits.rt: the bits of one
