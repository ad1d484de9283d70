// A scheme converted, and what refuses that.
ghost use Rattle.std.specs.Prelude.{◌≡◌, ◌≤◌, T, leb, Result};
ghost use Rattle.laws.specs.Check.{all};
ghost use Rattle.accepted.specs.Answers.{as_checked};
ghost use Rattle.model.specs.Scheme.{commands_of, operations_of};
ghost use Rattle.model.specs.Accepted.{accepted_scheme};
ghost use Rattle.conversion.specs.Conversion.{conversion_fault, convertible, convert_scheme, keeps_all};
ghost use Rattle.convert.specs.Inner.Parts.{convert_head};
ghost use Rattle.convert.specs.Convert.{converted_scheme};
ghost use Rattle.convert.specs.Results.{scheme_result};
ghost use Rattle.faults.specs.declared.Fault.{Fault};
ghost use Rattle.model.specs.declared.Scheme.{Scheme};

use crate::command::{convert_command, keep_things};
use accepted::scheme_accepted;
use faults::Fault;
use model::{Head, Operations, Scheme};
use rights::Right;

// ---- what refuses it

fn all_keep_things(s: Scheme) -> bool
    ensures { result ≡ all (λ c. keeps_all (operations_of c.operations)) (commands_of s) }
{
    s.commands
        .iter()
        .take(s.head.count as usize)
        .all(|c| keep_things(c.operations))
}

// Whether each command has room for twice its operations.
fn all_fit(s: Scheme) -> bool
    ensures { result ≡ all (λ c. leb c.operations.count 16) (commands_of s) }
{
    s.commands
        .iter()
        .take(s.head.count as usize)
        .all(|c| c.operations.count <= Operations::LIMIT / 2)
}

// 20, then 21, then 22, each over all of the scheme.
#[tactic(auto, using(accepted::proofs::SchemeLaws::checks, std::proofs::lemmas::Bool::Decides::nat_tests), unfolding(conversion::specs::Conversion::conversion_fault, faults::specs::Numbers::fault_of))]
pub(crate) fn conversion_fault(s: Scheme) -> Result<(), Fault>
    ensures { result ≡ as_checked (conversion_fault s) }
{
    if !all_keep_things(s) {
        return Err(Fault::CreatesOrDestroys);
    }
    if Right::LIMIT / 2 < s.head.rights {
        return Err(Fault::TooManyRights);
    }
    if !all_fit(s) {
        return Err(Fault::TooManyOperations);
    }
    Ok(())
}

// ---- the scheme

// Twice the rights; the rest stays.
pub(crate) fn converted_head(h: Head) -> Head
    requires { h.rights ≤ 32 }
    ensures { result ≡ convert_head h }
{
    Head {
        rights: 2 * h.rights,
        ..h
    }
}

// The head, and each command converted.
fn convert_all(s: Scheme) -> Scheme
    requires { T (accepted_scheme s) × T (convertible s) }
    ensures { result ≡ convert_scheme s }
{
    let mut commands = s.commands;
    for command in commands[..s.head.count as usize].iter_mut() {
        *command = convert_command(s.head.rights, *command);
    }
    Scheme {
        head: converted_head(s.head),
        commands,
    }
}

// The scheme converted where it lies, one that is refused left as it was: 27, then 20, 21, 22, each over all of it.
pub fn converted_scheme(s: &mut Scheme) -> Result<(), Fault>
    ensures { ◌≡◌ {A = Result Unit Fault × Scheme} (result, s.new) (scheme_result (converted_scheme s.old)) }
{
    if !scheme_accepted(*s) {
        return Err(Fault::NotAccepted);
    }
    conversion_fault(*s)?;
    *s = convert_all(*s);
    Ok(())
}
