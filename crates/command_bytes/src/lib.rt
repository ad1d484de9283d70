// A scheme's records from bytes, one by one: its head, and a command. `scheme_bytes` puts them together, so that a change of it rechecks none of this.
#![tactic(auto, unfolding(faults::specs::Numbers::fault_of))]

mod command;
mod fields;
mod head;
mod lists;
mod none;

pub use command::read_command;
pub use head::read_head;
pub use none::no_command;
