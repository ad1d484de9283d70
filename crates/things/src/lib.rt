// The things of a matrix by seat: none, the seat of an id, a thing put at a seat, by which the highest id may rise; and cells copied.
#![tactic(auto)]

ghost use Rattle.std.specs.Prelude.{◌≡◌, take};
ghost use Rattle.std.proofs.lemmas.List.Edits.{sets};
ghost use Rattle.model.specs.Seats.{find, no_things, put_thing};

use model::Things;
use rights::ThingType;

// Every seat is free, and there never was a thing.
pub fn no_things() -> Things
    ensures { result ≡ no_things }
{
    Things {
        ids: [0; Things::LIMIT],
        types: [ThingType(0); Things::LIMIT],
        marks: [false; Things::LIMIT],
        highest: 0,
    }
}

// The first of the first n seats with this id, or how many seats those are. It stops there: measured, that is faster than a look at every seat, several
// at a time, on few things and on many.
pub fn seat_in(ids: [u16; Things::LIMIT], n: usize, x: u16) -> usize
    ensures { result ≡ find (take n ids) x }
{
    let most = n.min(Things::LIMIT);
    ids[..most].iter().position(|id| *id == x).unwrap_or(most)
}

// The first seat with this id, or 48, which is no seat's number: the definition (`find`) and the theorems of seats count so.
pub fn seat_of(ids: [u16; Things::LIMIT], x: u16) -> usize
    ensures { result ≡ find ids x }
{
    seat_in(ids, Things::LIMIT, x)
}

// At a seat sits a thing of a type, on hold or not, and the highest id is at least its own; past the last seat nobody sits, and no more than the highest
// may change.
#[tactic(auto, using(crate::proofs::SeatLaws::seats), unfolding(model::specs::Seats::put_thing))]
pub fn put_thing(th: Things, i: usize, x: u16, t: ThingType, mark: bool) -> Things
    ensures { result ≡ put_thing i x (record { type = t; on_hold = mark }) th }
{
    let mut next = th;
    next.highest = th.highest.max(x);
    if i < Things::LIMIT {
        next.ids[i] = x;
        next.types[i] = t;
        next.marks[i] = mark;
    }
    next
}

// As many cells as both have.
pub fn copy_cells(to: &mut [u64], from: &[u64])
    ensures { to.new ≡ sets to.old 0 from.now }
{
    let both = to.len().min(from.len());
    to[..both].copy_from_slice(&from[..both]);
}
