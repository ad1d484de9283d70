// The cells: the tests read them, and the operations change them once nothing can refuse any more.
ghost use Rattle.std.specs.Prelude.{◌≡◌, ◌≤◌, length, get_or, set};
ghost use Rattle.model.specs.Answers.{verdict_of};
ghost use Rattle.model.specs.Scheme.{tests_of, operations_of};
ghost use Rattle.model.specs.Seats.{blank};
ghost use Rattle.engine.specs.Inner.Cells.{place_at, holds_at, first_false, cells_by, cells_after};

use model::{Code, Operation, Operations, Parameters, Refusal, Test, Tests, Things};
use plan::seat_at;
use rights::{Parameter, RightSet};

#[tactic(auto, unfolding(crate::specs::Inner::Cells::place_at))]
fn place_at(spots: [u8; Parameters::PLACES], row: Parameter, column: Parameter) -> usize
    ensures { result ≡ place_at spots row column }
{
    (seat_at(spots, row) as usize) * Things::LIMIT + (seat_at(spots, column) as usize)
}

// The set at a place; one past the end is empty, and a store there changes nothing.
fn cell_at(cells: &[u64], k: usize) -> RightSet
    ensures { result.0 ≡ get_or cells.now k 0 }
{
    RightSet(cells.get(k).copied().unwrap_or(0))
}

fn put_cell(cells: &mut [u64], k: usize, s: RightSet)
    ensures { cells.new ≡ set cells.old k s.0 }
{
    if k < cells.len() {
        cells[k] = s.0;
    }
}

// ---- tests

fn holds(cells: &[u64], spots: [u8; Parameters::PLACES], t: Test) -> bool
    ensures { result ≡ holds_at cells.now spots t }
{
    let there = cell_at(cells, place_at(spots, t.row, t.column)).has(t.right);
    there == t.present
}

// The first test that doesn't hold is the fault.
pub(crate) fn test_all(
    cells: &[u64],
    spots: [u8; Parameters::PLACES],
    t: Tests,
) -> Result<(), Refusal>
    requires { t.count ≤ 16 }
    ensures { result ≡ verdict_of (first_false cells.now spots 0 (tests_of t)) }
{
    for (place, one) in t.list[..t.count as usize].iter().enumerate() {
        if !holds(cells, spots, *one) {
            return Err(Refusal {
                number: 14,
                place: place as u8,
            });
        }
    }
    Ok(())
}

// ---- operations

// The row and the column of a seat emptied.
fn blank_seat(cells: &mut [u64], p: usize)
    requires { length cells.old ≡ 2304 }
    ensures { cells.new ≡ blank p 0 cells.old }
{
    if p < Things::LIMIT {
        for j in 0..Things::LIMIT {
            cells[p * Things::LIMIT + j] = 0;
            cells[j * Things::LIMIT + p] = 0;
        }
    }
}

fn change_one(cells: &mut [u64], spots: [u8; Parameters::PLACES], o: Operation)
    requires { length cells.old ≡ 2304 }
    ensures { cells.new ≡ cells_by spots o cells.old o.code }
{
    let k = place_at(spots, o.row, o.column);
    match o.code {
        Code::Enter => put_cell(cells, k, cell_at(cells, k).enter(o.right)),
        Code::Delete => put_cell(cells, k, cell_at(cells, k).delete(o.right)),
        Code::Create => {}
        Code::Destroy => blank_seat(cells, seat_at(spots, o.row) as usize),
    }
}

pub(crate) fn change_all(cells: &mut [u64], spots: [u8; Parameters::PLACES], o: Operations)
    requires { (o.count ≤ 32) × (length cells.old ≡ 2304) }
    ensures { cells.new ≡ cells_after spots (operations_of o) cells.old }
{
    for one in &o.list[..o.count as usize] {
        change_one(cells, spots, *one);
    }
}
