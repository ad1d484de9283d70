// A command from its record: its three lists, and the body's end.
ghost use Rattle.std.specs.Prelude.{◌≡◌, ℕ, Result};
ghost use Rattle.model.specs.declared.Command.{Command};
ghost use Rattle.records.specs.Reading.{whole};
ghost use Rattle.records.specs.Results.{value_of};
ghost use Rattle.records.specs.declared.Refused.{Refused};
ghost use Rattle.command_bytes.specs.Read.{command};
ghost use Rattle.command_bytes.specs.Answers.{command_lent, read_command};

use crate::fields::Scope;
use crate::lists::types_at;
use crate::none::no_command;
use accepted::head_accepted;
use faults::Fault;
use model::{Command, Head, Operations, Parameters, Tests};
use records::{Kinds, Refused};

// The command of a body: its types, its tests, its operations, and the end.
#[tactic(auto, using(crate::proofs::CommandLaws::command_lines, crate::proofs::FieldReads::field_range))]
fn command_of(b: &[u8], head: Head) -> Result<Command, Fault>
    ensures { result ≡ value_of (whole (command head) b.now) }
{
    let k = records::field_at(b, 0, 1, Parameters::LIMIT + 1, 4)?;
    let parameters = types_at(b, 1, head, k)?;
    let scope = Scope { head, parameters };
    let i = 1 + k as usize;
    let t = records::field_at(b, i, 0, Tests::LIMIT + 1, 4)?;
    let tests = scope.tests_at(b, i + 1, t)?;
    let j = i + 1 + 4 * t as usize;
    let o = records::field_at(b, j, 1, Operations::LIMIT + 1, 4)?;
    let operations = scope.operations_at(b, j + 1, tests, o)?;
    if j + 1 + 4 * (o as usize) < b.len() {
        return Err(Fault::BodyEnd);
    }
    Ok(Command {
        parameters,
        tests,
        operations,
    })
}

// The command's record at a position, into the lent command, and the next position: 27 for a head that no reading gives. A refused one leaves zeros, whatever
// was lent.
#[tactic(auto, using(crate::proofs::ItemLaws::command_lent_lines, crate::proofs::ItemLaws::found_within))]
pub fn read_command(s: &[u8], at: usize, h: Head, command: &mut Command) -> Result<usize, Refused>
    ensures { ◌≡◌ {A = Result ℕ Refused × Command} (result, command.new) (command_lent (read_command s.now at h)) }
{
    *command = no_command();
    if !head_accepted(h) {
        return Err(Refused {
            fault: Fault::NotAccepted,
            at: 0,
        });
    }
    let found = records::record_at(s, at, Kinds(4))?;
    let body = records::body(s, found.start, found.len);
    match command_of(body, h) {
        Ok(read) => {
            *command = read;
            Ok(found.start + found.len)
        }
        Err(fault) => Err(Refused { fault, at }),
    }
}
