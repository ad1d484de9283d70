// The converted scheme's and the converted matrix's bytes, from the start of a lent buffer on.
ghost use Rattle.std.specs.Prelude.{◌≡◌, List, ℕ, Result};
ghost use Rattle.faults.specs.declared.Fault.{Fault};
ghost use Rattle.model.specs.Seats.{matrix_of};
ghost use Rattle.records.specs.Results.{written};
ghost use Rattle.convert.specs.Convert.{convert_scheme_into, convert_matrix_into};

use crate::matrix::converted_cells;
use crate::scheme::{converted_head, converted_scheme};
use faults::Fault;
use model::{Scheme, Things};

// 27, then 20, 21, 22, then 9.
pub fn convert_scheme(out: &mut [u8], s: Scheme) -> Result<usize, Fault>
    ensures { ◌≡◌ {A = Result ℕ Fault × List ℕ} (result, out.new) (written (convert_scheme_into out.old s)) }
{
    let mut robot = s;
    converted_scheme(&mut robot)?;
    scheme_write::write_scheme(out, robot)
}

// 27, then 20, 21, 22 of the scheme, then 9.
pub fn convert_matrix(out: &mut [u8], s: Scheme, th: Things, cells: &[u64]) -> Result<usize, Fault>
    ensures { ◌≡◌ {A = Result ℕ Fault × List ℕ} (result, out.new) (written (convert_matrix_into out.old s (matrix_of th cells.now))) }
{
    if cells.len() != Things::CELLS {
        return Err(Fault::NotAccepted);
    }
    let mut copy = [0u64; Things::CELLS];
    copy.copy_from_slice(cells);
    converted_cells(s, th, &mut copy)?;
    matrix_write::write_matrix_by_head(out, converted_head(s.head), th, &copy)
}
