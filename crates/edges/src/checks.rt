// The tasks 60 to 65, which only ask of the scheme and the matrix: what is accepted, the totals, what the checks of form look up, seats, and a mark that is
// set in a copy of the things.
use crate::case::{Bytes, Case};
use crate::lent::Lent;
use crate::print::Line;
use crate::{sum, values};
use model::{Scheme, Things};
use rights::{Numbered, Parameter};

fn all(line: &mut Line, lent: &Lent) {
    let head = lent.scheme.head;
    line.tell(accepted::head_accepted(head));
    line.tell(accepted::scheme_accepted(*lent.scheme));
    line.tell(accepted_matrix::things_accepted(head, *lent.things));
    line.tell(accepted_matrix::matrix_accepted(head, *lent.things, lent.cells));
}

fn command(line: &mut Line, i: usize, s: &Scheme) {
    let command = values::command_at(s, i);
    line.tell(accepted::command_fault(s.head, command));
    line.tell(accepted::command_accepted(s.head, command));
}

// A command's lists, of which n operations, asked with a parameter; and a code.
fn form(line: &mut Line, b: Bytes, n: usize, s: &Scheme) {
    let command = values::command_at(s, b.one_at(0) as usize);
    let parameter = Parameter(b.one_at(1));
    let code = values::code(b.one_at(2));
    let operations = command.operations;
    line.tell(accepted::type_at(command.parameters, parameter).byte());
    line.tell(accepted::last_group(operations, n));
    line.tell(accepted::creatable(command.tests, operations, n, parameter));
    line.tell(accepted::destroyable(operations, n, parameter));
    line.tell(accepted::group_of(code));
    line.tell(accepted::is_create(code));
}

fn seats(line: &mut Line, n: usize, x: u16, th: &Things) {
    line.tell(things::seat_in(th.ids, n, x));
    line.tell(things::seat_of(th.ids, x));
}

fn mark(line: &mut Line, b: Bytes, lent: &Lent) {
    let mut copy = *lent.things;
    line.tell(hold::mark_thing(&mut copy, b.two_at(0), b.one_at(2) == 1));
    line.tell(sum::matrix(&copy, lent.cells));
}

pub(crate) fn task(line: &mut Line, case: Case, lent: &Lent) {
    let b = case.bytes;
    match case.task {
        60 => all(line, lent),
        61 => command(line, case.at, lent.scheme),
        62 => line.tell(totals::totals(*lent.scheme, *lent.things, lent.cells)),
        63 => form(line, b, case.at, lent.scheme),
        65 => mark(line, b, lent),
        _ => seats(line, case.at, b.two_at(0), lent.things),
    }
}
