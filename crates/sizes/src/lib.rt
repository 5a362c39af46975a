// Chunks, the record size and count, and where variables end.
#![tactic(auto)]

pub mod records; // records.rt: chunks, the record size, ends
pub mod count; // count.rt: the record count
