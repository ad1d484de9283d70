// A matrix from bytes, against a scheme. Its records are read one by one in `matrix_records`; its writer stands in `matrix_write`, so that a change of
// one rechecks only that one.
#![tactic(auto)]

mod head;
mod read;

pub use read::{read_matrix, read_matrix_by_head, read_rest};
