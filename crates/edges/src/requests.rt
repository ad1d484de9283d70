// The tasks 20 to 22: a request and lists of requests, on the lent cells.
use crate::case::{Bytes, Case};
use crate::lent::Lent;
use crate::print::Line;
use crate::sum;
use engine::Ended;
use faults::Fault;

fn request(line: &mut Line, b: Bytes, lent: &mut Lent) {
    let asked = b.asked();
    line.tell(engine::request(
        *lent.scheme,
        lent.things,
        lent.cells,
        asked.command,
        asked.ids(),
    ));
}

// How many requests were answered; with a record that can't be read its position too.
fn ended(line: &mut Line, answer: Result<Ended, Fault>) {
    match answer {
        Ok(Ended { count, cut: None }) => line.numbers(&[0, count as u64]),
        Ok(
            Ended {
                count,
                cut: Some(refused),
            },
        ) => {
            line.tell(refused.fault);
            line.tell((count, refused.at));
        }
        Err(fault) => line.tell(fault),
    }
}

pub(crate) fn task(line: &mut Line, case: Case, lent: &mut Lent) {
    let s = *lent.scheme;
    let b = case.bytes;
    match case.task {
        20 => request(line, b, lent),
        21 => {
            ended(
                line,
                engine::run_list(s, lent.things, lent.cells, b.0, lent.out),
            );
            line.tell(sum::numbers(lent.out));
        }
        _ => ended(line, engine::run_quietly(s, lent.things, lent.cells, b.0)),
    }
}
