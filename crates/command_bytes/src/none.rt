// Nothing, as the unused places of the arrays hold it.
ghost use Rattle.std.specs.Prelude.{◌≡◌};
ghost use Rattle.model.specs.Arrays.{no_command};

use model::{Code, Command, Operation, Operations, Parameters, Test, Tests};
use rights::{Parameter, Right, ThingType};

pub(crate) const NO_TYPE: ThingType = ThingType(0);

pub(crate) const NO_TEST: Test = Test {
    present: false,
    right: Right(0),
    row: Parameter(0),
    column: Parameter(0),
};

pub(crate) const NO_OPERATION: Operation = Operation {
    code: Code::Enter,
    right: Right(0),
    row: Parameter(0),
    column: Parameter(0),
};

// A command with no parameters, tests and operations. No reading gives it.
#[tactic(auto, unfolding(model::specs::Arrays::no_command, model::specs::Arrays::command_of))]
pub fn no_command() -> Command
    ensures { result ≡ no_command }
{
    Command {
        parameters: Parameters {
            count: 0,
            types: [NO_TYPE; Parameters::PLACES],
        },
        tests: Tests {
            count: 0,
            list: [NO_TEST; Tests::PLACES],
        },
        operations: Operations {
            count: 0,
            list: [NO_OPERATION; Operations::PLACES],
        },
    }
}
