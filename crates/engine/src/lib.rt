// One request, and a list of requests, on a lent matrix.
#![tactic(auto)]

mod answers;
mod cells;
mod list;
mod replies;
mod step;

pub use answers::Ended;
pub use list::{run_list, run_quietly};
pub use step::request;
