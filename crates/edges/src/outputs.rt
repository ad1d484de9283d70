// The tasks 30 to 34: a scheme or a matrix written into a lent buffer, as it is or converted.
use crate::case::Case;
use crate::lent::Lent;
use crate::print::Line;
use crate::sum;
use faults::Fault;

fn write(task: u8, lent: &mut Lent) -> Result<usize, Fault> {
    let s = *lent.scheme;
    let th = *lent.things;
    let cells = &mut *lent.cells;
    let out = &mut *lent.out;
    match task {
        30 => scheme_write::write_scheme(out, s),
        31 => convert::convert_scheme(out, s),
        32 => matrix_write::write_matrix(out, s, th, cells),
        33 => matrix_write::write_matrix_by_head(out, s.head, th, cells),
        _ => convert::convert_matrix(out, s, th, cells),
    }
}

pub(crate) fn task(line: &mut Line, case: Case, lent: &mut Lent) {
    line.tell(write(case.task, lent));
    line.tell(sum::numbers(lent.out));
}
