// An image with a head of kind 3: that head is read here, and what stands behind it by the reader of matrices.
ghost use Rattle.std.specs.Prelude.{◌≡◌, T};
ghost use Rattle.model.specs.Accepted.{accepted_head};
ghost use Rattle.records.specs.Reading.{whole};
ghost use Rattle.records.specs.Results.{value_of};
ghost use Rattle.moving.specs.Old.{old_head, highest_listed, old_content};
ghost use Rattle.moving.specs.Inner.Parts.{at_start, things_of};

use faults::Fault;
use model::{Head, Things};
use records::{Kinds, Record, Refused};
use rights::Right;

// A fault as a refusal of the whole image, or of its head, which is the first record.
pub(crate) fn at_start(fault: Fault) -> Refused
    ensures { result ≡ at_start fault }
{
    Refused { fault, at: 0 }
}

// How many things the head's body states.
fn count_in(b: &[u8], h: Head) -> Result<u8, Fault>
    ensures { result ≡ value_of (whole (old_head h) b.now) }
{
    let rights = records::field_at(b, 0, 1, Right::LIMIT + 1, 4)?;
    if rights != h.rights {
        return Err(Fault::Form);
    }
    let count = records::field_at(b, 1, 0, (Things::LIMIT + 1) as u8, 4)?;
    if 2 < b.len() {
        return Err(Fault::BodyEnd);
    }
    Ok(count)
}

// The things of an image with such a head. The cells are read too, as part of the image, and then nobody asks for them. Without a highest in the head, no id
// is above it.
pub(crate) fn read_old(image: &[u8], h: Head) -> Result<Things, Refused>
    requires { T (accepted_head h) }
    ensures { result ≡ things_of (old_content h image.now 0) }
{
    let Record { start, len, .. } = records::record_at(image, 0, Kinds(8))?;
    let count = count_in(records::body(image, start, len), h).map_err(at_start)?;
    let mut th = things::no_things();
    let mut cells = [0u64; Things::CELLS];
    matrix_bytes::read_rest(image, start + len, h, u16::MAX, count, &mut th, &mut cells)?;
    Ok(th)
}

// The highest id that sits in a seat, 0 where nobody does.
pub(crate) fn highest_listed(th: Things) -> u16
    ensures { result ≡ highest_listed th }
{
    th.ids.iter().copied().max().unwrap_or(0)
}
