// The tasks 100 to 102: what stands behind a head is read, and an image is moved forward or back.
use crate::case::{Bytes, Case};
use crate::lent::Lent;
use crate::print::Line;
use crate::sum;

// Before the input stand the highest id and the number of things that a head states.
fn read_rest(line: &mut Line, b: Bytes, at: usize, lent: &mut Lent) {
    line.tell(matrix_bytes::read_rest(
        b.behind(3).0,
        at,
        lent.scheme.head,
        b.two_at(0),
        b.one_at(2),
        lent.things,
        lent.cells,
    ));
}

// A move is told with the sum of the buffer that it was lent.
pub(crate) fn task(line: &mut Line, case: Case, lent: &mut Lent) {
    let b = case.bytes;
    match case.task {
        100 => read_rest(line, b, case.at, lent),
        101 => {
            line.tell(moving::forward(b.0, *lent.scheme, lent.out));
            line.tell(sum::numbers(lent.out));
        }
        _ => {
            line.tell(moving::back(b.0, *lent.scheme, lent.out));
            line.tell(sum::numbers(lent.out));
        }
    }
}
