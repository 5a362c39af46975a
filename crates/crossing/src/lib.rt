// Tables that cross to another language: as numbers in lent memory.
#![tactic(auto)]

mod row; // row.rt: a row as numbers
pub mod store; // store.rt: tables put down as numbers
pub mod load; // load.rt: numbers taken up as tables
