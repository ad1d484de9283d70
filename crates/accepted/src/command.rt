// The first fault of a command: its parameters, its tests and its operations in turn, each list with its count first.
ghost use Rattle.std.specs.Prelude.{◌≡◌, [], leb};
ghost use Rattle.laws.specs.Check.{◌or_else◌, must, between, first_fault};
ghost use Rattle.model.specs.Scheme.{parameters_of, tests_of, operations_of};
ghost use Rattle.model.specs.Accepted.{type_range, test_fault, thing_fault, operation_fault, operations_fault, command_fault};
ghost use Rattle.accepted.specs.Answers.{as_checked, before};
ghost use Rattle.accepted.specs.Inner.Parts.{cell_fault};

use crate::checked::{between, must};
use crate::form::{creatable, destroyable, group_of, is_parameter, last_group, type_at};
use faults::Fault;
use model::{Code, Command, Head, Operation, Operations, Parameters, Tests};
use rights::{Numbered, Parameter, Right};

#[tactic(auto, using(crate::proofs::SchemeLaws::checks), unfolding(laws::specs::Check::between, faults::specs::Numbers::fault_of))]
fn parameters_fault(h: Head, p: Parameters) -> Result<(), Fault>
    ensures { result ≡ as_checked (must (between 1 8 p.count) 4 or_else first_fault (type_range h) (parameters_of p)) }
{
    must(between(1, Parameters::LIMIT, p.count), Fault::Count)?;
    must(
        p.types[..p.count as usize].iter().all(|t| t.below(h.types)),
        Fault::Range,
    )
}

// What a test, an enter and a delete say of a cell: a right of the scheme, a row of a subject type, a column.
#[tactic(auto, using(crate::proofs::SchemeLaws::checks), unfolding(model::specs::Accepted::row_fault, model::specs::Scheme::is_subject, faults::specs::Numbers::fault_of))]
fn cell_fault(
    h: Head,
    p: Parameters,
    right: Right,
    row: Parameter,
    column: Parameter,
) -> Result<(), Fault>
    ensures { result ≡ as_checked (cell_fault h (parameters_of p) right row column) }
{
    must(right.below(h.rights), Fault::Range)?;
    must(is_parameter(p, row), Fault::Range)?;
    must(h.subjects.has(type_at(p, row)), Fault::Form)?;
    must(is_parameter(p, column), Fault::Range)
}

#[tactic(auto, using(crate::proofs::SchemeLaws::checks), unfolding(laws::specs::Check::between, faults::specs::Numbers::fault_of))]
fn tests_fault(h: Head, p: Parameters, t: Tests) -> Result<(), Fault>
    ensures { result ≡ as_checked (must (leb t.count 16) 4 or_else first_fault (test_fault h (parameters_of p)) (tests_of t)) }
{
    must(t.count <= Tests::LIMIT, Fault::Count)?;
    for one in &t.list[..t.count as usize] {
        cell_fault(h, p, one.right, one.row, one.column)?;
    }
    Ok(())
}

// A create or a destroy, and whether its parameter may have one there.
#[tactic(auto, using(crate::proofs::SchemeLaws::checks), unfolding(model::specs::Accepted::thing_fault, faults::specs::Numbers::fault_of))]
fn thing_fault(p: Parameters, fits: bool, o: Operation) -> Result<(), Fault>
    ensures { result ≡ as_checked (thing_fault (parameters_of p) fits o) }
{
    must(o.right.is_zero(), Fault::Form)?;
    must(is_parameter(p, o.row), Fault::Range)?;
    must(fits, Fault::Form)?;
    must(o.column.is_zero(), Fault::Form)
}

// One operation behind the first n.
#[tactic(auto, using(crate::proofs::SchemeLaws::checks), unfolding(model::specs::Accepted::operation_fault, model::specs::Accepted::code_fault, model::specs::Accepted::change_fault, faults::specs::Numbers::fault_of))]
fn operation_fault(h: Head, c: Command, n: usize, one: Operation) -> Result<(), Fault>
    ensures { result ≡ as_checked (operation_fault h (parameters_of c.parameters) (tests_of c.tests) (before c.operations n) one) }
{
    must(
        last_group(c.operations, n) <= group_of(one.code),
        Fault::Form,
    )?;
    match one.code {
        Code::Enter | Code::Delete => cell_fault(h, c.parameters, one.right, one.row, one.column),
        Code::Create => thing_fault(
            c.parameters,
            creatable(c.tests, c.operations, n, one.row),
            one,
        ),
        Code::Destroy => thing_fault(c.parameters, destroyable(c.operations, n, one.row), one),
    }
}

#[tactic(auto, using(crate::proofs::SchemeLaws::checks), unfolding(laws::specs::Check::between, faults::specs::Numbers::fault_of))]
fn operations_fault(h: Head, c: Command) -> Result<(), Fault>
    ensures { result ≡ as_checked (must (between 1 32 c.operations.count) 4 or_else operations_fault h (parameters_of c.parameters) (tests_of c.tests) [] (operations_of c.operations)) }
{
    let o = c.operations;
    must(between(1, Operations::LIMIT, o.count), Fault::Count)?;
    for (i, one) in o.list[..o.count as usize].iter().enumerate() {
        operation_fault(h, c, i, *one)?;
    }
    Ok(())
}

#[tactic(auto, using(crate::proofs::SchemeLaws::checks), unfolding(model::specs::Accepted::command_fault))]
pub fn command_fault(h: Head, c: Command) -> Result<(), Fault>
    ensures { result ≡ as_checked (command_fault h c) }
{
    parameters_fault(h, c.parameters)?;
    tests_fault(h, c.parameters, c.tests)?;
    operations_fault(h, c)
}
