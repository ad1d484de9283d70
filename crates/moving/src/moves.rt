// Forward and back: an image is read whole against a scheme, and written with the other head.
ghost use Rattle.std.specs.Prelude.{◌≡◌, List, Result, ℕ};
ghost use Rattle.records.specs.declared.Refused.{Refused};
ghost use Rattle.moving.specs.Answers.{moved_into, forward_into, back_into};

use crate::image::{write_new, write_old};
use crate::old::{at_start, highest_listed, read_old};
use accepted::scheme_accepted;
use faults::Fault;
use model::{Scheme, Things};
use records::Refused;

// From kind 3 to kind 7: the highest is the highest listed id. 27, the reading's own numbers, then 9.
pub fn forward(old: &[u8], s: Scheme, out: &mut [u8]) -> Result<usize, Refused>
    ensures { ◌≡◌ {A = Result ℕ Refused × List ℕ} (result, out.new) (moved_into (forward_into old.now s out.old)) }
{
    if !scheme_accepted(s) {
        return Err(at_start(Fault::NotAccepted));
    }
    let th = read_old(old, s.head)?;
    write_new(out, old, highest_listed(th)).map_err(at_start)
}

// From kind 7 to kind 3, unless the highest would be lost: 27, the reading's own numbers, 23, then 9.
pub fn back(new: &[u8], s: Scheme, out: &mut [u8]) -> Result<usize, Refused>
    ensures { ◌≡◌ {A = Result ℕ Refused × List ℕ} (result, out.new) (moved_into (back_into new.now s out.old)) }
{
    if !scheme_accepted(s) {
        return Err(at_start(Fault::NotAccepted));
    }
    let mut th = things::no_things();
    let mut cells = [0u64; Things::CELLS];
    matrix_bytes::read_matrix_by_head(new, s.head, &mut th, &mut cells)?;
    if th.highest != highest_listed(th) {
        return Err(at_start(Fault::HighestLost));
    }
    write_old(out, new).map_err(at_start)
}
