// A scheme from bytes: the records that `command_bytes` reads, one behind the other, and the end. Its writer stands in `scheme_write`, so that a change of
// one rechecks only that one.
#![tactic(auto, unfolding(faults::specs::Numbers::fault_of))]

mod none;
mod read;
mod reader;

pub use none::no_scheme;
pub use reader::read_scheme;
