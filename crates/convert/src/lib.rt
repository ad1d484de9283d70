// A scheme, or a matrix of it, converted: as values, and as bytes.
#![tactic(auto)]

mod bytes;
mod command;
mod matrix;
mod scheme;

pub use bytes::{convert_matrix, convert_scheme};
pub use matrix::converted_cells;
pub use scheme::converted_scheme;
