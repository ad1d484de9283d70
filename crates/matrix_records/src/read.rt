// A matrix's record at a position: its front, over the kinds that may stand there, and then its body.
ghost use Rattle.std.specs.Prelude.{◌≡◌};
ghost use Rattle.records.specs.Results.{record_result};
ghost use Rattle.matrix_records.specs.Answers.{any_record_at, read_head, read_thing, read_cell, last_of};
ghost use Rattle.matrix_records.specs.Inner.Bodies.{record_against, item_at};

use crate::answers::{FoundCell, FoundHead, FoundThing};
use crate::bodies::{cell_of, head_of, thing_of};
use accepted::head_accepted;
use faults::Fault;
use model::{Head, Things};
use records::{Kinds, Record, Refused};

// The record that stands at a position, whatever its kind: front (1), body's end (1).
pub fn any_record_at(s: &[u8], at: usize) -> Result<Record, Refused>
    ensures { result ≡ record_result (any_record_at s.now at) }
{
    let short = Refused {
        fault: Fault::Truncated,
        at,
    };
    let Ok(len) = records::field2_at(s, at) else {
        return Err(short);
    };
    let Ok(kind) = records::field2_at(s, at + 2) else {
        return Err(short);
    };
    let start = at + 4;
    let len = len as usize;
    if s.len() - start < len {
        return Err(short);
    }
    Ok(Record { kind, start, len })
}

// The record that is to be read against a scheme's head: 27 for a head that no reading gives.
fn record_against(s: &[u8], at: usize, kinds: Kinds, h: Head) -> Result<Record, Refused>
    ensures { result ≡ record_result (record_against s.now at kinds.0 h) }
{
    if !head_accepted(h) {
        return Err(Refused {
            fault: Fault::NotAccepted,
            at: 0,
        });
    }
    records::record_at(s, at, kinds)
}

// What was read of a body, as the item of the record that stands at a position and ends at the next one.
fn item<T>(read: Result<T, Fault>, at: usize, next: usize) -> Result<(T, usize), Refused>
    ensures { result ≡ item_at at next read }
{
    match read {
        Ok(found) => Ok((found, next)),
        Err(fault) => Err(Refused { fault, at }),
    }
}

// The head's record, against a scheme's head: 27 for one that no reading gives, here and below.
pub fn read_head(s: &[u8], at: usize, kinds: Kinds, h: Head) -> Result<(FoundHead, usize), Refused>
    ensures { result ≡ read_head s.now at kinds.0 h }
{
    let Record { kind, start, len } = record_against(s, at, kinds, h)?;
    let found = head_of(records::body(s, start, len), h, kind);
    item(found, at, start + len)
}

// A thing's record, with an id up to the highest that the head states, behind a thing with the id `last`, 0 for none.
pub fn read_thing(
    s: &[u8],
    at: usize,
    kinds: Kinds,
    h: Head,
    highest: u16,
    last: u16,
) -> Result<(FoundThing, usize), Refused>
    ensures { result ≡ read_thing s.now at kinds.0 h highest last }
{
    let Record { kind, start, len } = record_against(s, at, kinds, h)?;
    let found = thing_of(records::body(s, start, len), h, highest, last, kind);
    item(found, at, start + len)
}

// A cell's record, of the first n things, behind a cell at a row and a column, 0 and 0 for none.
pub fn read_cell(
    s: &[u8],
    at: usize,
    kinds: Kinds,
    h: Head,
    th: Things,
    n: usize,
    over: u16,
    by: u16,
) -> Result<(FoundCell, usize), Refused>
    ensures { result ≡ read_cell s.now at kinds.0 h th n (last_of over by) }
{
    let Record { kind, start, len } = record_against(s, at, kinds, h)?;
    let found = cell_of(records::body(s, start, len), h, th, n, over, by, kind);
    item(found, at, start + len)
}
