// The tasks 10 to 19, which change the things or are lent the cells: a matrix is read, set, copied, converted or marked, and a request planned.
use crate::case::{Bytes, Case};
use crate::lent::Lent;
use crate::plans;
use crate::print::Line;
use model::Things;
use rights::ThingType;

// To the cells from a place on.
fn copy(b: Bytes, at: usize, cells: &mut [u64]) {
    let k = at.min(cells.len());
    things::copy_cells(&mut cells[k..], b.numbers().list());
}

fn put_thing(b: Bytes, at: usize, th: &mut Things) {
    let of = ThingType(b.one_at(2));
    *th = things::put_thing(*th, at, b.two_at(0), of, b.one_at(3) == 1);
}

pub(crate) fn task(line: &mut Line, case: Case, lent: &mut Lent) {
    let b = case.bytes;
    let s = &*lent.scheme;
    let th = &mut *lent.things;
    let cells = &mut *lent.cells;
    match case.task {
        10 => line.tell(matrix_bytes::read_matrix(b.0, *s, th, cells)),
        11 => line.tell(matrix_bytes::read_matrix_by_head(b.0, s.head, th, cells)),
        12 => copy(b, case.at, cells),
        13 => line.tell(convert::converted_cells(*s, *th, cells)),
        14 => *th = things::no_things(),
        15 => plans::task(line, b, case.at, s, th),
        // so that an id can stand above it, which no function makes
        17 => th.highest = (case.at % 65536) as u16,
        18 => line.tell(hold::hold(*s, th, cells, b.two_at(0))),
        19 => line.tell(hold::release(*s, th, cells, b.two_at(0))),
        _ => put_thing(b, case.at, th),
    }
}
