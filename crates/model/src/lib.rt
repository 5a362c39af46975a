// The model rules: what the tables of a header must hold beside the grammar.
#![tactic(auto)]

pub mod checked; // checked.rt: tables whose ids hold
pub mod names; // names.rt: names of one list
pub mod rows; // rows.rt: the rows that are in use
pub mod rules; // rules.rt: the rules over the tables
