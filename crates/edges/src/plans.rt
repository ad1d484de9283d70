// The task 15: where a request's things sit, and what its creates and destroys make of them, whose spots are given.
use crate::case::Bytes;
use crate::print::Line;
use crate::{sum, values};
use model::{Parameters, Refusal, Scheme, Things};
use rights::Parameter;

type Spots = [u8; Parameters::PLACES];

// The answer, all spots as they were left, and one of them.
fn told(line: &mut Line, answer: Result<(), Refusal>, spots: Spots, at: usize) {
    line.tell(answer);
    line.tell(sum::numbers(&spots));
    line.tell(plan::seat_at(spots, Parameter((at % 256) as u8)));
}

// Before the request stand two spots: the first is that of every parameter but the second.
fn spots(b: Bytes) -> Spots {
    let mut spots = [b.one_at(0); Parameters::PLACES];
    spots[1] = b.one_at(1);
    spots
}

// The things are then those that the plan leaves.
pub(crate) fn task(line: &mut Line, b: Bytes, at: usize, s: &Scheme, th: &mut Things) {
    let asked = b.behind(2).asked();
    let command = values::command_at(s, asked.command as usize);
    let parameters = command.parameters;
    let operations = command.operations;
    // No zeros are lent to `locate` either, so that it shows what a refusal leaves.
    let mut found = spots(b);
    let answer = plan::locate(th, parameters, operations, asked.ids(), &mut found);
    told(line, answer, found, at);
    let mut planned = spots(b);
    let answer = plan::plan_all(th, &mut planned, parameters, asked.ids(), operations);
    told(line, answer, planned, at);
}
