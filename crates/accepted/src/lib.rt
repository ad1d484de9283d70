// 27: whether a scheme is one that some reading gives. The checks go through the fields in the outline's order and tell the first fault.
#![tactic(auto)]

mod checked;
mod command;
mod form;
mod padding;
mod scheme;

pub use command::command_fault;
pub use form::{creatable, destroyable, group_of, is_create, last_group, type_at};
pub use scheme::{command_accepted, head_accepted, scheme_accepted};
