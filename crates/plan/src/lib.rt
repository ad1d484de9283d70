// Where a request's things sit, and what its creates and destroys make of them. Every fault of an id or of an operation is met here, on a copy of the
// things, and no cell is touched.
#![tactic(auto)]

mod places;
mod plan;
mod spots;

pub use places::locate;
pub use plan::{Plan, plan_all};
pub use spots::seat_at;
