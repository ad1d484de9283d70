// The robots' library, for C and Rust: functions on bytes and numbers only. What each promises stands in words in library/slushferret.h.
#![tactic(auto)]

mod check;
mod convert_bytes;
mod mark_bytes;
mod move_bytes;
mod report;
mod run;
mod version;

pub use check::{slushferret_check_matrix, slushferret_check_scheme};
pub use convert_bytes::{slushferret_convert_matrix, slushferret_convert_scheme};
pub use mark_bytes::{slushferret_hold, slushferret_release};
pub use move_bytes::{slushferret_back, slushferret_forward};
pub use run::{slushferret_run, slushferret_write_request};
pub use version::slushferret_version;
