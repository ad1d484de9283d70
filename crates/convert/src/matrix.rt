// The cells of a matrix, converted where they lie.
ghost use Rattle.std.specs.Prelude.{◌≡◌, List, ℕ, Result, ◌^◌, ◌≤◌, ◌<◌, T, length, get_or};
ghost use Rattle.rights.specs.Sets.{converted};
ghost use Rattle.model.specs.Seats.{matrix_of};
ghost use Rattle.model.specs.Accepted.{accepted_matrix};
ghost use Rattle.conversion.specs.Conversion.{convert_cells};
ghost use Rattle.convert.specs.Inner.Parts.{convert_row};
ghost use Rattle.convert.specs.Convert.{converted_cells};
ghost use Rattle.convert.specs.Results.{cells_result};
ghost use Rattle.faults.specs.declared.Fault.{Fault};

use crate::scheme::conversion_fault;
use accepted::scheme_accepted;
use accepted_matrix::matrix_accepted;
use faults::Fault;
use model::{Head, Scheme, Things};
use rights::RightSet;

// A set with the partner of each right it lacks.
#[tactic(auto, using(crate::proofs::CellLaws::converted_word, crate::proofs::CellLaws::word_small))]
fn convert_set(c: RightSet, n: u8) -> RightSet
    requires { (n ≤ 32) × (c.0 < 2 ^ n) }
    ensures { result.0 ≡ converted n c.0 }
{
    let lacking = c.complement(n);
    RightSet(c.0 + (lacking.0 << n))
}

// A subject's row: there is a cell in each column that has a thing.
fn convert_row(ids: [u16; Things::LIMIT], n: u8, row: &mut [u64])
    requires { (n ≤ 32) × (length row.old ≡ 48) × ((j : ℕ) → j < 48 → get_or row.old j 0 < 2 ^ n) }
    ensures { row.new ≡ convert_row n ids row.old }
{
    for j in 0..Things::LIMIT {
        if ids[j] != 0 {
            row[j] = convert_set(RightSet(row[j]), n).0;
        }
    }
}

// A row of no subject has no cells, so none of its places is looked at.
fn convert_cells(h: Head, th: Things, cells: &mut [u64])
    requires { (h.rights ≤ 32) × T (accepted_matrix h (matrix_of th cells.old)) }
    ensures { cells.new ≡ convert_cells h th 0 cells.old }
{
    for i in 0..Things::LIMIT {
        if th.ids[i] != 0 && h.subjects.has(th.types[i]) {
            let from = i * Things::LIMIT;
            let to = from + Things::LIMIT;
            convert_row(th.ids, h.rights, &mut cells[from..to]);
        }
    }
}

// Every existing cell, empty ones too, gains the partner of each right it lacks: 27, then 20, 21, 22 of the scheme.
pub fn converted_cells(s: Scheme, th: Things, cells: &mut [u64]) -> Result<(), Fault>
    ensures { ◌≡◌ {A = Result (Unit {0}) Fault × List ℕ} (result, cells.new) (cells_result (converted_cells s (matrix_of th cells.old))) }
{
    if !scheme_accepted(s) || !matrix_accepted(s.head, th, cells) {
        return Err(Fault::NotAccepted);
    }
    conversion_fault(s)?;
    convert_cells(s.head, th, cells);
    Ok(())
}
