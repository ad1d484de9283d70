// What is accepted as a scheme: its head, its commands, and zeros in the unused places.
ghost use Rattle.std.specs.Prelude.{◌≡◌, cond, ◌&&◌};
ghost use Rattle.laws.specs.Check.{all, padded};
ghost use Rattle.model.specs.Scheme.{commands_of};
ghost use Rattle.model.specs.Accepted.{head_fault, accepted_head, zero_command, accepted_command, accepted_scheme};
ghost use Rattle.accepted.specs.Answers.{as_checked};

use crate::checked::{between, must};
use crate::command::command_fault;
use crate::padding::{padded_command, zero_command};
use faults::Fault;
use model::{Command, Head, Scheme};
use rights::{Right, ThingType};

#[tactic(auto, using(crate::proofs::SchemeLaws::checks), unfolding(model::specs::Accepted::head_fault, faults::specs::Numbers::fault_of))]
fn head_fault(h: Head) -> Result<(), Fault>
    ensures { result ≡ as_checked (head_fault h) }
{
    must(between(1, Right::LIMIT, h.rights), Fault::Count)?;
    must(between(1, ThingType::LIMIT, h.types), Fault::Count)?;
    must(h.subjects.within(h.types), Fault::Form)?;
    must(between(1, Scheme::LIMIT, h.count), Fault::Count)
}

#[tactic(auto, using(crate::proofs::SchemeLaws::tells))]
pub fn head_accepted(h: Head) -> bool
    ensures { result ≡ accepted_head h }
{
    head_fault(h).is_ok()
}

#[tactic(auto, using(crate::proofs::SchemeLaws::tells), unfolding(model::specs::Accepted::accepted_command))]
pub fn command_accepted(h: Head, c: Command) -> bool
    ensures { result ≡ accepted_command h c }
{
    command_fault(h, c).is_ok() && padded_command(c)
}

// What stands at a place for a command: one that is accepted where it is in use, zeros where it isn't.
fn place_accepted(h: Head, used: bool, c: Command) -> bool
    ensures { result ≡ cond used (accepted_command h c) (zero_command c) }
{
    if used {
        command_accepted(h, c)
    } else {
        zero_command(c)
    }
}

// By the places' numbers: measured, going over the commands in use and then over those behind them, or over all as items, takes a fifth longer.
fn commands_accepted(s: Scheme) -> bool
    ensures { result ≡ (all (accepted_command s.head) (commands_of s) && padded zero_command 32 s.head.count s.commands) }
{
    let n = s.head.count as usize;
    let mut fine = true;
    for i in 0..Scheme::PLACES {
        fine = fine & place_accepted(s.head, i < n, s.commands[i]);
    }
    fine
}

#[tactic(auto, unfolding(model::specs::Accepted::accepted_scheme))]
pub fn scheme_accepted(s: Scheme) -> bool
    ensures { result ≡ accepted_scheme s }
{
    head_accepted(s.head) && commands_accepted(s)
}
