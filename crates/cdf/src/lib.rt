// The words of the NetCDF classic format: each function reads one word of the grammar at a place of
// the header's bytes, and its contract says that its answer means the step of that name in specs/.
#![tactic(auto)]

pub mod step; // step.rt: what a step answers
pub mod refusal; // refusal.rt: why a header or a request is refused
pub mod place; // place.rt: a place of the header's bytes
pub mod word; // word.rt: words with a range
pub mod version; // version.rt: magic word and version byte
pub mod padding; // padding.rt: padding bytes
pub mod list; // list.rt: how a list starts
