// 27: whether things and cells are a matrix that some reading gives. Of the scheme its head is enough.
#![tactic(auto)]

ghost use Rattle.std.specs.Prelude.{◌≡◌, cond, not, ◌&&◌, ◌<◌, eqb, leb, length, get_or};
ghost use Rattle.rights.specs.Numberings.{type_below, zero_type};
ghost use Rattle.model.specs.Seats.{thing_in, matrix_of};
ghost use Rattle.model.specs.Accepted.{apart, accepted_seat, all_from, accepted_things, standing, accepted_places, accepted_matrix};

use model::{Head, Things};
use rights::{Numbered, RightSet, ThingType};
use things::seat_of;

// An id that isn't 0 stands once exactly if the first seat that has it is its own.
fn ids_apart(ids: [u16; Things::LIMIT]) -> bool
    ensures { result ≡ apart ids }
{
    for (i, x) in ids.iter().enumerate() {
        if *x != 0 && seat_of(ids, *x) != i {
            return false;
        }
    }
    true
}

// A free seat has type 0 and no mark; any other has an id not above the highest, and one of the scheme's types.
fn seat_accepted(h: Head, highest: u16, x: u16, t: ThingType, mark: bool) -> bool
    ensures { result ≡ cond (eqb x 0) (zero_type t && not mark) (leb x highest && type_below t h.types) }
{
    if x == 0 {
        t.is_zero() & !mark
    } else {
        (x <= highest) & t.below(h.types)
    }
}

fn seats_accepted(h: Head, th: Things) -> bool
    ensures { result ≡ all_from (λ i. accepted_seat h th (get_or th.ids i 0) (thing_in th i)) 0 48 }
{
    let mut fine = true;
    for i in 0..Things::LIMIT {
        fine = fine & seat_accepted(h, th.highest, th.ids[i], th.types[i], th.marks[i]);
    }
    fine
}

#[tactic(auto, using(crate::proofs::MatrixLaws::arrays), unfolding(model::specs::Accepted::accepted_things))]
pub fn things_accepted(h: Head, th: Things) -> bool
    ensures { result ≡ accepted_things h th }
{
    let ids = th.ids;
    ids_apart(ids) & seats_accepted(h, th)
}

// Whether there is a cell at these seats.
#[tactic(auto, unfolding(model::specs::Accepted::standing, model::specs::Scheme::is_subject))]
fn is_standing(h: Head, th: Things, i: usize, j: usize) -> bool
    requires { (i < 48) × (j < 48) }
    ensures { result ≡ standing h th i j }
{
    (th.ids[i] != 0) & (th.ids[j] != 0) & h.subjects.has(th.types[i])
}

// An empty cell may be anywhere, and most are: the things are looked at only for the others.
fn places_accepted(h: Head, th: Things, cells: &[u64]) -> bool
    requires { length cells.now ≡ 2304 }
    ensures { result ≡ accepted_places h th 0 cells.now }
{
    let mut fine = true;
    for (k, c) in cells.iter().enumerate() {
        if *c != 0 {
            fine = fine
                & is_standing(h, th, k / Things::LIMIT, k % Things::LIMIT)
                & RightSet(*c).within(h.rights);
        }
    }
    fine
}

#[tactic(auto, unfolding(model::specs::Accepted::accepted_matrix))]
pub fn matrix_accepted(h: Head, th: Things, cells: &[u64]) -> bool
    ensures { result ≡ accepted_matrix h (matrix_of th cells.now) }
{
    if cells.len() != Things::CELLS {
        return false;
    }
    things_accepted(h, th) & places_accepted(h, th, cells)
}
