// Files read and written as every tool of the house does it. No contract can say what the system reads or writes, so these functions promise only that
// they are safe and end; what they do is tested (tests/).
#![tactic(auto)]

mod both;
mod names;
mod read;
mod told;
mod write;

pub use both::write_two;
pub use names::text_of;
pub use read::{LONGEST, MOST_READ, read_file};
pub use told::{Told, tell, tell_error};
pub use write::Output;
