// A matrix's bytes, into a lent buffer. What they are is said in `matrix_bytes`, beside what is read.
#![tactic(auto, unfolding(faults::specs::Numbers::fault_of))]

mod write;

pub use write::{write_matrix, write_matrix_by_head};
