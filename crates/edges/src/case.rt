// A case of the input: its task's number (1 byte), the lengths of its label (1) and of its bytes (2), how many cells are lent (2), the room of the lent
// buffer (8), a position (8); then the label and the bytes.
ghost use Rattle.std.specs.Prelude.{◌≤◌};

use crate::given::{Asked, Numbers};

// Bytes, with the fields that stand in them; a field is 0 where they have ended.
#[derive(Clone, Copy)]
pub(crate) struct Bytes<'a>(pub &'a [u8]);

#[derive(Clone, Copy)]
pub(crate) struct Case<'a> {
    pub task: u8,
    pub label: &'a [u8],
    pub cells: usize,
    pub room: usize,
    pub at: usize,
    pub bytes: Bytes<'a>,
}

impl<'a> Bytes<'a> {
    pub(crate) fn one_at(self, i: usize) -> u8 {
        records::byte_at(self.0, i).unwrap_or(0)
    }

    pub(crate) fn two_at(self, i: usize) -> u16 {
        records::field2_at(self.0, i).unwrap_or(0)
    }

    pub(crate) fn eight_at(self, i: usize) -> u64 {
        records::field8_at(self.0, i).unwrap_or(0)
    }

    // What stands behind the first n bytes; no buffer of cases is longer.
    pub(crate) fn behind(self, n: usize) -> Bytes<'a> {
        Bytes(records::body(self.0, n, Case::LONGEST))
    }

    // A request that is handed in directly: the command's number, and up to ten ids.
    pub(crate) fn asked(self) -> Asked {
        Asked {
            command: self.one_at(0),
            ids: std::array::from_fn(|i| self.two_at(1 + 2 * i)),
            count: self.0.len() / 2 % (Asked::MOST + 1),
        }
    }

    // Up to four numbers of eight bytes.
    pub(crate) fn numbers(self) -> Numbers {
        Numbers {
            list: std::array::from_fn(|i| self.eight_at(8 * i)),
            count: self.0.len() / 8 % (Numbers::MOST + 1),
        }
    }
}

impl<'a> Case<'a> {
    // How long the fields before the label are.
    pub(crate) const FRONT: usize = 22;

    // A case's buffer; one that is longer is cut.
    pub(crate) const LONGEST: usize = 65536;

    pub(crate) fn new(input: &'a [u8]) -> Case<'a> {
        let all = Bytes(input);
        let label = all.one_at(1) as usize;
        Case {
            task: all.one_at(0),
            label: records::body(input, Case::FRONT, label),
            cells: all.two_at(4) as usize,
            room: all.eight_at(6) as usize,
            at: all.eight_at(14) as usize,
            bytes: Bytes(records::body(input, Case::FRONT + label, all.two_at(2) as usize)),
        }
    }
}

// How long the case is whose front stands there.
pub(crate) fn length(front: Bytes) -> usize
    ensures { 22 ≤ result }
{
    Case::FRONT + (front.one_at(1) as usize) + (front.two_at(2) as usize)
}
