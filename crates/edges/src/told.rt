// What is told of the answers that the library's functions give: their numbers, in the order in which the independent program tells them.
use crate::print::{Line, Told, Why};
use faults::Fault;
use matrix_records::{FoundCell, FoundHead, FoundThing};
use model::{Head, Refusal, Reply};
use records::{Record, Refused};
use rights::{Numbered, RightSet};
use totals::Totals;

// ---- why something is refused

impl Told for Fault {
    fn tell(self, line: &mut Line) {
        self.number().tell(line);
    }
}

impl Why for Fault {
    fn none() -> Fault {
        Fault::from(0)
    }
}

// By the conversion, which nothing else here would call.
impl Told for Refused {
    fn tell(self, line: &mut Line) {
        (u8::from(self.fault), self.at).tell(line);
    }
}

impl Why for Refused {
    fn none() -> Refused {
        Refused {
            fault: Fault::none(),
            at: 0,
        }
    }
}

impl Told for Refusal {
    fn tell(self, line: &mut Line) {
        (self.number, self.place).tell(line);
    }
}

impl Why for Refusal {
    fn none() -> Refusal {
        Refusal {
            number: 0,
            place: 0,
        }
    }
}

// ---- records

impl Told for Record {
    fn tell(self, line: &mut Line) {
        line.numbers(&[self.kind as u64, self.start as u64, self.len as u64]);
    }
}

impl Told for Head {
    fn tell(self, line: &mut Line) {
        line.numbers(&[
            self.rights as u64,
            self.types as u64,
            self.subjects.0 as u64,
            self.count as u64,
        ]);
    }
}

impl Told for FoundHead {
    fn tell(self, line: &mut Line) {
        line.numbers(&[self.kind as u64, self.count as u64, self.highest as u64]);
    }
}

impl Told for FoundThing {
    fn tell(self, line: &mut Line) {
        line.numbers(&[self.kind as u64, self.id as u64, self.of.byte() as u64]);
    }
}

impl Told for FoundCell {
    fn tell(self, line: &mut Line) {
        line.numbers(&[
            self.kind as u64,
            self.row as u64,
            self.column as u64,
            self.place as u64,
            self.rights,
        ]);
    }
}

// ---- the others

impl Told for RightSet {
    fn tell(self, line: &mut Line) {
        self.0.tell(line);
    }
}

impl Told for Reply {
    fn tell(self, line: &mut Line) {
        line.numbers(&[self.number as u64, self.test as u64, self.steps as u64]);
    }
}

impl Told for Totals {
    fn tell(self, line: &mut Line) {
        line.numbers(&[self.things as u64, self.cells as u64, self.entries as u64]);
    }
}
