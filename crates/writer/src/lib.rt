// The header writer.
#![tactic(auto)]

mod output; // output.rt: bytes, words and names into an output
mod rows; // rows.rt: rows of tables into an output
pub mod header; // header.rt: the header writer
