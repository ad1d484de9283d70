// A scheme's head from its record.
ghost use Rattle.std.specs.Prelude.{◌≡◌};
ghost use Rattle.records.specs.Reading.{whole};
ghost use Rattle.records.specs.Results.{value_of};
ghost use Rattle.command_bytes.specs.Read.{head};
ghost use Rattle.command_bytes.specs.Answers.{read_head};

use faults::Fault;
use model::{Head, Scheme};
use records::{Kinds, Refused};
use rights::{Right, ThingType, TypeSet};

// The head of a body, 5 bytes.
#[tactic(auto, using(crate::proofs::FieldReads::head_lines))]
fn head_of(b: &[u8]) -> Result<Head, Fault>
    ensures { result ≡ value_of (whole head b.now) }
{
    let rights = records::field_at(b, 0, 1, Right::LIMIT + 1, 4)?;
    let types = records::field_at(b, 1, 1, ThingType::LIMIT + 1, 4)?;
    let subjects = TypeSet(records::field2_at(b, 2)?);
    if !subjects.within(types) {
        return Err(Fault::Form);
    }
    let count = records::field_at(b, 4, 1, Scheme::LIMIT + 1, 4)?;
    if 5 < b.len() {
        return Err(Fault::BodyEnd);
    }
    Ok(Head {
        rights,
        types,
        subjects,
        count,
    })
}

// The head's record at a position, and the next position.
#[tactic(auto, using(crate::proofs::ItemLaws::read_head_lines, crate::proofs::ItemLaws::found_within))]
pub fn read_head(s: &[u8], at: usize) -> Result<(Head, usize), Refused>
    ensures { result ≡ read_head s.now at }
{
    let found = records::record_at(s, at, Kinds(2))?;
    let body = records::body(s, found.start, found.len);
    match head_of(body) {
        Ok(head) => Ok((head, found.start + found.len)),
        Err(fault) => Err(Refused { fault, at }),
    }
}
