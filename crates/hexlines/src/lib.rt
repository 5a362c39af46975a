// Lines of hexadecimal, each a file: cut out of blocks of text, decoded, and answered by fields in decimal.
#![tactic(auto)]

pub mod cut;
pub mod digit;
pub mod line;
pub mod text;
