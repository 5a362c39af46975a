// Tests of tables that are to be written.
#![tactic(auto)]

pub mod length; // length.rt: how many bytes of the header a row makes
mod bounded; // bounded.rt: tables whose counts are within their rows
mod inside; // inside.rt: a row inside its text
pub mod words; // words.rt: names, words and types in range
mod rows; // rows.rt: all rows, tested, and the bytes that they make
mod totals; // totals.rt: the record count, ends, the file's size
pub mod writable; // writable.rt: all the tests
