// The values that a chunk's bytes hold, and those of a whole variable, record by record. Inner functions: each `requires`
// is what a read has tested before it decodes.
#![tactic(auto)]

pub mod pattern; // pattern.rt: the float or double that a pattern of bits stands for
pub mod short; // short.rt: numbers of two bytes
pub mod element; // element.rt: what an element is
pub mod chunk; // chunk.rt: the elements of each type
pub mod strided; // strided.rt: the same of every record
pub mod room; // room.rt: room for records
