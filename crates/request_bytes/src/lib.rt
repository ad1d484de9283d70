// A request's record: read at a position of a list, and written at a position of a buffer.
#![tactic(auto, unfolding(faults::specs::Numbers::fault_of))]

mod read;
mod write;

pub use read::{read_request, skip_request};
pub use write::write_request;

// A command number and up to 8 ids, with zeros behind them: an array and its count, since a library crate has no heap.
#[derive(Clone, Copy, Debug, PartialEq, Eq)]
pub struct Request {
    pub command: u8,
    pub count: u8,
    pub ids: [u16; Request::LIMIT],
}

impl Request {
    pub const LIMIT: usize = 8;
    // All zeros: what stands where no request was read.
    pub const NONE: Request = Request {
        command: 0,
        count: 0,
        ids: [0; Request::LIMIT],
    };
}
