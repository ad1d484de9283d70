// The records of a matrix, one by one: the head, a thing behind a thing, a cell behind a cell. Each is read at a position, whatever stands around it.
#![tactic(auto)]

mod answers;
mod bodies;
mod read;

pub use answers::{FoundCell, FoundHead, FoundThing};
pub use read::{any_record_at, read_cell, read_head, read_thing};
