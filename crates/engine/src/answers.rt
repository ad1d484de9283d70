// What a list of requests is answered.
use records::Refused;

// How a list of requests ended, after so many requests: with its end, or cut off by a record that can't be read.
#[derive(Clone, Copy, Debug, PartialEq, Eq)]
pub struct Ended {
    pub count: usize,
    pub cut: Option<Refused>,
}
