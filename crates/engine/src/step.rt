// One request on a scheme, and on lent things and cells.
ghost use Rattle.std.specs.Prelude.{◌≡◌, ◌&&◌, List, ℕ, T};
ghost use Rattle.model.specs.Seats.{matrix_of};
ghost use Rattle.model.specs.Accepted.{accepted_scheme, accepted_matrix};
ghost use Rattle.engine.specs.Answers.{Stepped};
ghost use Rattle.engine.specs.Step.{request_on};
ghost use Rattle.engine.specs.Inner.Carry.{Counted, Carried, carried, planned, step_on};

use crate::cells::{change_all, test_all};
use crate::replies::reply;
use accepted::scheme_accepted;
use accepted_matrix::matrix_accepted;
use model::{Command, Parameters, Refusal, Reply, Scheme, Things};
use plan::{locate, plan_all};

// A command with these ids: all faults first, then the cells.
fn carry_out(c: Command, th: &mut Things, cells: &mut [u64], ids: &[u16]) -> Result<(), Refusal>
    requires { Counted c cells.old }
    ensures { ◌≡◌ {A = Carried} (result, matrix_of th.new cells.new) (carried (matrix_of th.old cells.old) (planned (matrix_of th.old cells.old) ids.now c)) }
{
    if ids.len() != (c.parameters.count as usize) {
        return Err(Refusal {
            number: 11,
            place: 0,
        });
    }
    let mut spots = [0u8; Parameters::PLACES];
    locate(th, c.parameters, c.operations, ids, &mut spots)?;
    test_all(cells, spots, c.tests)?;
    plan_all(th, &mut spots, c.parameters, ids, c.operations)?;
    change_all(cells, spots, c.operations);
    Ok(())
}

// A request of an accepted scheme and matrix. The command is taken from the scheme here, and nobody in between takes the scheme by value: each would
// copy it.
pub(crate) fn step_on(
    s: &Scheme,
    th: &mut Things,
    cells: &mut [u64],
    command: u8,
    ids: &[u16],
) -> Reply
    requires { T (accepted_scheme s.now) × T (accepted_matrix s.now.head (matrix_of th.old cells.old)) }
    ensures { ◌≡◌ {A = Stepped × List ℕ} (record { answer = result; things = th.new }, cells.new) (step_on s.now (matrix_of th.old cells.old) command ids.now) }
{
    if s.head.count <= command {
        return reply(
            Err(Refusal {
                number: 10,
                place: 0,
            }),
            0,
            0,
        );
    }
    let c = s.commands[command as usize];
    let answer = carry_out(c, th, cells, ids);
    reply(answer, c.tests.count, c.operations.count)
}

// Whether both are accepted (27).
pub(crate) fn all_accepted(s: Scheme, th: Things, cells: &[u64]) -> bool
    ensures { result ≡ (accepted_scheme s && accepted_matrix s.head (matrix_of th cells.now)) }
{
    scheme_accepted(s) && matrix_accepted(s.head, th, cells)
}

// One request: 27 before all other checks, then 10 to 18. Whether refused early or late, it then has no effect at all.
pub fn request(s: Scheme, th: &mut Things, cells: &mut [u64], command: u8, ids: &[u16]) -> Reply
    ensures { ◌≡◌ {A = Stepped × List ℕ} (record { answer = result; things = th.new }, cells.new) (request_on s (matrix_of th.old cells.old) command ids.now) }
{
    if !all_accepted(s, *th, cells) {
        return reply(
            Err(Refusal {
                number: 27,
                place: 0,
            }),
            0,
            0,
        );
    }
    step_on(&s, th, cells, command, ids)
}
