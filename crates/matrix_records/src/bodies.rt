// The bodies of a matrix's records: their fields in order, each read and then checked.
ghost use Rattle.std.specs.Prelude.{◌≡◌, drop};
ghost use Rattle.records.specs.Reading.{whole};
ghost use Rattle.records.specs.Results.{value_of};
ghost use Rattle.matrix_records.specs.Content.{listed};
ghost use Rattle.matrix_records.specs.Read.{head, thing, cell};
ghost use Rattle.matrix_records.specs.Answers.{last_of, named, found_head, found_thing, found_cell};
ghost use Rattle.matrix_records.specs.Inner.Bodies.{seat_of, thing_id, rights_of};

use crate::answers::{FoundCell, FoundHead, FoundThing};
use faults::Fault;
use model::{Head, Things};
use rights::{Right, RightSet, ThingType};

pub(crate) fn head_of(b: &[u8], h: Head, kind: u16) -> Result<FoundHead, Fault>
    ensures { result ≡ value_of (named (found_head kind) (whole (head h) b.now)) }
{
    let rights = records::field_at(b, 0, 1, Right::LIMIT + 1, 4)?;
    if rights != h.rights {
        return Err(Fault::Form);
    }
    let count = records::field_at(b, 1, 0, (Things::LIMIT + 1) as u8, 4)?;
    let highest = records::field2_at(b, 2)?;
    if 4 < b.len() {
        return Err(Fault::BodyEnd);
    }
    Ok(FoundHead {
        kind,
        count,
        highest,
    })
}

// A thing with an id up to the highest, behind one with the id `last`, 0 for none.
pub(crate) fn thing_of(
    b: &[u8],
    h: Head,
    highest: u16,
    last: u16,
    kind: u16,
) -> Result<FoundThing, Fault>
    ensures { result ≡ value_of (named (found_thing kind) (whole (thing h highest last kind) b.now)) }
{
    let id = records::field2_at(b, 0)?;
    if id == 0 {
        return Err(Fault::Form);
    }
    if id <= last {
        return Err(Fault::Order);
    }
    if highest < id {
        return Err(Fault::Form);
    }
    let of = ThingType(records::field_at(b, 2, 0, h.types, 5)?);
    if 3 < b.len() {
        return Err(Fault::BodyEnd);
    }
    Ok(FoundThing { kind, id, of })
}

// The id of one of the first n things (5), and its seat.
fn seat_at(b: &[u8], i: usize, th: Things, n: usize) -> Result<(u16, usize), Fault>
    ensures { result ≡ value_of (named (seat_of n th.ids) (thing_id (listed n th) (drop i b.now))) }
{
    let id = records::field2_at(b, i)?;
    if id == 0 {
        return Err(Fault::Range);
    }
    let seat = things::seat_in(th.ids, n, id);
    if n <= seat || Things::LIMIT <= seat {
        return Err(Fault::Range);
    }
    Ok((id, seat))
}

// The set of a cell, and the end of its body.
fn rights_of(b: &[u8], h: Head) -> Result<u64, Fault>
    ensures { result ≡ value_of (whole (rights_of h) (drop 4 b.now)) }
{
    let rights = records::field8_at(b, 4)?;
    if !RightSet(rights).within(h.rights) {
        return Err(Fault::Range);
    }
    if rights == 0 {
        return Err(Fault::Form);
    }
    if 12 < b.len() {
        return Err(Fault::BodyEnd);
    }
    Ok(rights)
}

// A cell of the first n things, behind one at a row and a column.
pub(crate) fn cell_of(
    b: &[u8],
    h: Head,
    th: Things,
    n: usize,
    over: u16,
    by: u16,
    kind: u16,
) -> Result<FoundCell, Fault>
    ensures { result ≡ value_of (named (found_cell n th.ids kind) (whole (cell h (listed n th) (last_of over by)) b.now)) }
{
    let (row, i) = seat_at(b, 0, th, n)?;
    if !h.subjects.has(th.types[i]) {
        return Err(Fault::Form);
    }
    let (column, j) = seat_at(b, 2, th, n)?;
    if (over, by) >= (row, column) {
        return Err(Fault::Order);
    }
    let rights = rights_of(b, h)?;
    Ok(FoundCell {
        kind,
        row,
        column,
        place: i * Things::LIMIT + j,
        rights,
    })
}
