// Moving stored matrices between the two formats: forward, from a head of kind 3 to one of kind 7, and back. No other crate reads or writes kind 3, so that
// this one can go on the day when no farm stores it any more.
#![tactic(auto, unfolding(faults::specs::Numbers::fault_of))]

mod image;
mod moves;
mod old;

pub use moves::{back, forward};
