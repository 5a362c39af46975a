// A file in the other version: its header, with every position behind it moved.
#![tactic(auto)]

mod begins; // begins.rt: begins behind the header, within their form, and moved
mod length; // length.rt: the length of the new header
pub mod convert; // convert.rt: widening and narrowing
