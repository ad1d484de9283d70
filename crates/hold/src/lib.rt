// Hold and release: the office sets and clears the mark of a thing, by its id. Of the cells it is only asked whether they are a matrix's.
#![tactic(auto, unfolding(faults::specs::Numbers::fault_of))]

ghost use Rattle.std.specs.Prelude.{◌≡◌, Result};
ghost use Rattle.faults.specs.declared.Fault.{Fault};
ghost use Rattle.model.specs.declared.Things.{Things};
ghost use Rattle.hold.specs.Marking.{mark_thing, as_marked, marked_by, hold, release, marked_result};

use accepted::scheme_accepted;
use accepted_matrix::matrix_accepted;
use faults::Fault;
use model::{Scheme, Things};
use things::seat_of;

// The mark of the thing with this id; 12 where there is none.
pub fn mark_thing(th: &mut Things, x: u16, mark: bool) -> Result<(), Fault>
    ensures { ◌≡◌ {A = Result Unit Fault × Things} (result, th.new) (marked_result (as_marked th.old (mark_thing mark x th.old))) }
{
    if x == 0 {
        return Err(Fault::NoThing);
    }
    let ids = th.ids;
    let i = seat_of(ids, x);
    if Things::LIMIT <= i {
        return Err(Fault::NoThing);
    }
    th.marks[i] = mark;
    Ok(())
}

// The same in a matrix; 27 before 12.
fn marked_by(s: Scheme, th: &mut Things, cells: &[u64], x: u16, mark: bool) -> Result<(), Fault>
    ensures { ◌≡◌ {A = Result Unit Fault × Things} (result, th.new) (marked_result (marked_by mark s th.old cells.now x)) }
{
    if !(scheme_accepted(s) & matrix_accepted(s.head, *th, cells)) {
        return Err(Fault::NotAccepted);
    }
    mark_thing(th, x, mark)
}

pub fn hold(s: Scheme, th: &mut Things, cells: &[u64], x: u16) -> Result<(), Fault>
    ensures { ◌≡◌ {A = Result Unit Fault × Things} (result, th.new) (marked_result (hold s th.old cells.now x)) }
{
    marked_by(s, th, cells, x, true)
}

pub fn release(s: Scheme, th: &mut Things, cells: &[u64], x: u16) -> Result<(), Fault>
    ensures { ◌≡◌ {A = Result Unit Fault × Things} (result, th.new) (marked_result (release s th.old cells.now x)) }
{
    marked_by(s, th, cells, x, false)
}
