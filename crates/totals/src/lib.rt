// The totals that `play` prints at the end: things, cells that aren't empty, entries.
#![tactic(auto)]

mod answers;

ghost use Rattle.std.specs.Prelude.{◌≡◌, ◌<◌, ◌^◌, length, sum_by};
ghost use Rattle.model.specs.Seats.{matrix_of};
ghost use Rattle.rights.specs.Sets.{count_rights};
ghost use Rattle.totals.specs.Outcome.{as_totals};
ghost use Rattle.totals.specs.Totals.{filled, sum_of, totals_of};

use accepted::scheme_accepted;
use accepted_matrix::matrix_accepted;
pub use answers::Totals;
use faults::Fault;
use model::{Scheme, Things};
use rights::RightSet;

// Ids and cells are counted alike: one line for each of the two types is plainer than a bound that says what a type's 0 is.
#[tactic(auto, using(crate::proofs::Sums::is_counted))]
fn count_things(th: Things) -> u32
    ensures { result ≡ sum_of filled th.ids }
{
    th.ids.iter().filter(|&&id| id != 0).count() as u32
}

#[tactic(auto, using(crate::proofs::Sums::is_counted))]
fn count_cells(cells: &[u64]) -> u32
    requires { length cells.now ≡ 2304 }
    ensures { result ≡ sum_of filled cells.now }
{
    cells.iter().filter(|&&cell| cell != 0).count() as u32
}

// A cell has as many entries as rights.
fn entries_of(cell: u64) -> u32
    ensures { result ≡ count_rights cell }
{
    RightSet(cell).count()
}

#[tactic(auto, using(crate::proofs::Sums::is_summed))]
fn count_entries(cells: &[u64]) -> u32
    requires { sum_by count_rights cells.now < 2 ^ 32 }
    ensures { result ≡ sum_of count_rights cells.now }
{
    cells.iter().map(|&cell| entries_of(cell)).sum()
}

// The totals of a matrix of a scheme that some reading gives.
#[tactic(auto, using(crate::proofs::Sums::rights_fit, crate::proofs::Sums::cells_room), unfolding(crate::specs::Totals::totals_of, crate::specs::Totals::memory_totals, faults::specs::Numbers::fault_of))]
pub fn totals(s: Scheme, th: Things, cells: &[u64]) -> Result<Totals, Fault>
    ensures { result ≡ as_totals (totals_of s (matrix_of th cells.now)) }
{
    if !scheme_accepted(s) || !matrix_accepted(s.head, th, cells) {
        return Err(Fault::NotAccepted);
    }
    Ok(Totals {
        things: count_things(th),
        cells: count_cells(cells),
        entries: count_entries(cells),
    })
}
