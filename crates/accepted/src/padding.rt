// Zeros behind the used places of a command. No early exit, and `&&` within one place: LLVM makes one comparison of a place then, and looks at many
// places at once.
ghost use Rattle.std.specs.Prelude.{◌≡◌};
ghost use Rattle.model.specs.Accepted.{zero_test, zero_operation, padded_command, zero_command};

use model::{Code, Command, Operation, Operations, Parameters, Test, Tests};
use rights::Numbered;

#[tactic(auto, unfolding(model::specs::Accepted::zero_test))]
fn zero_test(t: Test) -> bool
    ensures { result ≡ zero_test t }
{
    !t.present && t.right.is_zero() && t.row.is_zero() && t.column.is_zero()
}

#[tactic(auto, unfolding(model::specs::Accepted::zero_operation))]
fn zero_operation(o: Operation) -> bool
    ensures { result ≡ zero_operation o }
{
    matches!(o.code, Code::Enter) && o.right.is_zero() && o.row.is_zero() && o.column.is_zero()
}

pub(crate) fn padded_command(c: Command) -> bool
    ensures { result ≡ padded_command c }
{
    let p = c.parameters;
    let types = &p.types[Parameters::PLACES.min(p.count as usize)..];
    let t = c.tests;
    let tests = &t.list[Tests::PLACES.min(t.count as usize)..];
    let o = c.operations;
    let operations = &o.list[Operations::PLACES.min(o.count as usize)..];
    types.iter().fold(true, |zero, one| zero & one.is_zero())
        & tests.iter().fold(true, |zero, one| zero & zero_test(*one))
        & operations
            .iter()
            .fold(true, |zero, one| zero & zero_operation(*one))
}

// A command of zeros uses none of its places.
#[tactic(auto, unfolding(model::specs::Accepted::zero_command))]
pub(crate) fn zero_command(c: Command) -> bool
    ensures { result ≡ zero_command c }
{
    let none = (c.parameters.count == 0) & (c.tests.count == 0) & (c.operations.count == 0);
    none & padded_command(c)
}
