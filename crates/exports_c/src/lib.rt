// The static library over `exports`: each function that C calls, with the clauses of the function that it calls.
#![tactic(auto)]

mod tables; // tables.rt: the header reader
mod names; // names.rt: names and numbers of variables
mod variable; // variable.rt: a variable, for a caller to keep between reads
mod element; // element.rt: one element
mod record; // record.rt: one record
mod whole; // whole.rt: all records
mod written; // written.rt: the header writer
mod converted; // converted.rt: widening and narrowing
mod guest; // guest.rt: what a 32-bit build of netcdf3 makes of a file
