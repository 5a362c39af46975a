// What another language calls, through exports_c: functions over numbers and slices, each for every input. A slice crosses as a pointer and a
// length, an output of one number as a pointer. Each answers 0 or the number of a refusal, and a refusal writes nothing.
#![tactic(auto)]

pub mod tables; // tables.rt: the header reader
pub mod names; // names.rt: names and numbers of variables
pub mod variable; // variable.rt: a variable, for a caller to keep between reads
pub mod element; // element.rt: one element
pub mod record; // record.rt: one record
pub mod whole; // whole.rt: all records
pub mod written; // written.rt: the header writer
pub mod converted; // converted.rt: widening and narrowing
pub mod guest; // guest.rt: what a 32-bit build of netcdf3 makes of a file
