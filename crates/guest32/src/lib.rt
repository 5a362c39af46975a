// What a 32-bit build of the Rust crate netcdf3 0.6.1 answers, for finding the results that such a build got wrong.
#![tactic(auto)]

pub mod guest; // guest.rt: its record count, and what it reads from elsewhere
