// Reading a matrix: its head, its things one by one, its cells to the end. Nothing that was lent is stored to before all of it has been read.
ghost use Rattle.std.specs.Prelude.{◌≡◌, List, ℕ, Result, ◌≤◌, length};
ghost use Rattle.model.specs.declared.Things.{Things};
ghost use Rattle.records.specs.Reading.{steps};
ghost use Rattle.records.specs.Front.{in_record};
ghost use Rattle.records.specs.Results.{item_of};
ghost use Rattle.records.specs.declared.Refused.{Refused};
ghost use Rattle.matrix_records.specs.Answers.{named};
ghost use Rattle.matrix_records.specs.Read.{thing};
ghost use Rattle.matrix_bytes.specs.Content.{things_from};
ghost use Rattle.matrix_bytes.specs.Read.{rest};
ghost use Rattle.matrix_bytes.specs.Answers.{as_matrix, matrix_result, read_rest, read_matrix, read_matrix_by_head};
ghost use Rattle.matrix_bytes.specs.Inner.Parts.{cells_from, CellsRead};

use crate::head::AcceptedHead;
use accepted::{head_accepted, scheme_accepted};
use faults::Fault;
use model::{Head, Scheme, Things};
use records::{Kinds, Refused};

// 27, for what no reading gives.
const NOT_ACCEPTED: Refused = Refused {
    fault: Fault::NotAccepted,
    at: 0,
};

// So many things with ids up to the highest, each behind the one before it, in the seats from the first on.
fn read_things(
    s: &[u8],
    at: usize,
    h: AcceptedHead,
    highest: u16,
    count: u8,
) -> Result<(Things, usize), Refused>
    ensures { result ≡ item_of (named (things_from highest) (steps (λ last. in_record s.now 272 (thing h.head highest last)) (λ last t. t.id) count 0 at)) }
{
    let mut th = things::no_things();
    th.highest = highest;
    let mut last: u16 = 0;
    let mut p = at;
    for j in 0..count as usize {
        let (found, next) = matrix_records::read_thing(s, p, Kinds(272), h.head, highest, last)?;
        th = things::put_thing(th, j, found.id, found.of, found.kind == 8);
        last = found.id;
        p = next;
    }
    Ok((th, p))
}

// All cells to the end of the input, each at its place.
fn read_cells(
    s: &[u8],
    at: usize,
    h: AcceptedHead,
    th: Things,
    n: usize,
    cells: &mut [u64; Things::CELLS],
) -> Result<usize, Refused>
    requires { at ≤ length s.now }
    ensures { CellsRead n th.ids cells.old result cells.new (cells_from s.now h.head th n at) }
{
    let mut over: u16 = 0;
    let mut by: u16 = 0;
    let mut p = at;
    // A loop, since a reading gives the next one's position.
    while p < s.len() {
        let (found, next) = matrix_records::read_cell(s, p, Kinds(32), h.head, th, n, over, by)?;
        cells[found.place] = found.rights;
        over = found.row;
        by = found.column;
        p = next;
    }
    Ok(p)
}

// What stands behind a head that states so many things and this highest id: the things, and the cells behind them, into the lent ones.
fn rest_of(
    s: &[u8],
    at: usize,
    h: AcceptedHead,
    highest: u16,
    count: u8,
    things: &mut Things,
    cells: &mut [u64],
) -> Result<usize, Refused>
    requires { (count ≤ 48) × (at ≤ length s.now) × (length cells.old ≡ 2304) }
    ensures { ◌≡◌ {A = Result ℕ Refused × Things × List ℕ} (result, things.new, cells.new) (matrix_result (as_matrix things.old cells.old (rest h.head highest count s.now at))) }
{
    let (th, start) = read_things(s, at, h, highest, count)?;
    let mut new = [0u64; Things::CELLS];
    let next = read_cells(s, start, h, th, count as usize, &mut new)?;
    *things = th;
    cells.copy_from_slice(&new);
    Ok(next)
}

// The same from any position on, for callers that read a head of their own: 27 for what no reading of a head gives.
pub fn read_rest(
    s: &[u8],
    at: usize,
    h: Head,
    highest: u16,
    count: u8,
    things: &mut Things,
    cells: &mut [u64],
) -> Result<usize, Refused>
    ensures { ◌≡◌ {A = Result ℕ Refused × Things × List ℕ} (result, things.new, cells.new) (matrix_result (read_rest s.now at h highest count things.old cells.old)) }
{
    if cells.len() != Things::CELLS
        || s.len() < at
        || Things::LIMIT < count as usize
        || !head_accepted(h)
    {
        return Err(NOT_ACCEPTED);
    }
    rest_of(
        s,
        at,
        AcceptedHead { head: h },
        highest,
        count,
        things,
        cells,
    )
}

// The whole of an input as a matrix of a scheme; where it is refused, the things and the cells stay.
pub fn read_matrix(
    s: &[u8],
    scheme: Scheme,
    things: &mut Things,
    cells: &mut [u64],
) -> Result<usize, Refused>
    ensures { ◌≡◌ {A = Result ℕ Refused × Things × List ℕ} (result, things.new, cells.new) (matrix_result (read_matrix s.now scheme things.old cells.old)) }
{
    if !scheme_accepted(scheme) {
        return Err(NOT_ACCEPTED);
    }
    read_matrix_by_head(s, scheme.head, things, cells)
}

// The same against a scheme's head alone, for callers that know the scheme to be accepted: 27 for a head that no reading gives.
pub fn read_matrix_by_head(
    s: &[u8],
    h: Head,
    things: &mut Things,
    cells: &mut [u64],
) -> Result<usize, Refused>
    ensures { ◌≡◌ {A = Result ℕ Refused × Things × List ℕ} (result, things.new, cells.new) (matrix_result (read_matrix_by_head s.now h things.old cells.old)) }
{
    if cells.len() != Things::CELLS || !head_accepted(h) {
        return Err(NOT_ACCEPTED);
    }
    let (head, next) = matrix_records::read_head(s, 0, Kinds(128), h)?;
    rest_of(
        s,
        next,
        AcceptedHead { head: h },
        head.highest,
        head.count,
        things,
        cells,
    )
}
