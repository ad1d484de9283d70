// The tasks 90 to 93: the head of a scheme, and the records of a matrix, each in the context that those before it left.
use crate::case::{Bytes, Case};
use crate::lent::Lent;
use crate::print::Line;
use matrix_records::{FoundCell, FoundHead, FoundThing};
use model::{Head, Things};
use records::{Kinds, Refused};

// What stands before the bytes that a matrix's record is read in: the kinds, the id of the row or of the thing before, that of the column, how many
// things there are, and the highest id that the head states.
#[derive(Drop)]
struct Context<'a> {
    kinds: Kinds,
    row: u16,
    column: u16,
    things: usize,
    highest: u16,
    bytes: &'a [u8],
    at: usize,
}

impl<'a> Context<'a> {
    fn new(b: Bytes<'a>, at: usize) -> Context<'a> {
        Context {
            kinds: Kinds(b.two_at(0)),
            row: b.two_at(2),
            column: b.two_at(4),
            things: b.eight_at(6) as usize,
            highest: b.two_at(14),
            bytes: b.behind(16).0,
            at,
        }
    }

    fn head(&self, h: Head) -> Result<(FoundHead, usize), Refused> {
        matrix_records::read_head(self.bytes, self.at, self.kinds, h)
    }

    fn thing(&self, h: Head) -> Result<(FoundThing, usize), Refused> {
        matrix_records::read_thing(self.bytes, self.at, self.kinds, h, self.highest, self.row)
    }

    fn cell(&self, h: Head, th: Things) -> Result<(FoundCell, usize), Refused> {
        matrix_records::read_cell(
            self.bytes,
            self.at,
            self.kinds,
            h,
            th,
            self.things,
            self.row,
            self.column,
        )
    }
}

pub(crate) fn task(line: &mut Line, case: Case, lent: &Lent) {
    let h = lent.scheme.head;
    let context = Context::new(case.bytes, case.at);
    match case.task {
        90 => line.tell(command_bytes::read_head(case.bytes.0, case.at)),
        91 => line.tell(context.head(h)),
        92 => line.tell(context.thing(h)),
        _ => line.tell(context.cell(h, *lent.things)),
    }
}
