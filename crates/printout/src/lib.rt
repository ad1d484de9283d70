// The whole text that `play` prints, and what `run` prints of a list's answers, in a lent buffer.
#![tactic(auto)]

mod play;
mod text;

pub use play::{answers_text, printout};
