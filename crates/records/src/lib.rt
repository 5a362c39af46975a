// Reads of one record and of all records of a variable, from the tables of a header and a window.
#![tactic(auto)]

mod stretch; // stretch.rt: records as places in the window
pub mod record; // record.rt: one record
pub mod whole; // whole.rt: all records
