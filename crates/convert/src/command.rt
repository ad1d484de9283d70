// A command converted.
ghost use Rattle.std.specs.Prelude.{◌≡◌, map, ◌≤◌, T};
ghost use Rattle.conversion.specs.Conversion.{convert_test, on_partner, convert_operations, convert_command, keeps_all};
ghost use Rattle.convert.specs.Inner.Parts.{padded_tests, opposite_of, Convertible};
ghost use Rattle.model.specs.Scheme.{tests_of, operations_of};
ghost use Rattle.model.specs.Arrays.{tests_from, operations_from};

use model::{Code, Command, Operation, Operations, Test, Tests};
use rights::{Parameter, Right};

// ---- its tests

// "r absent" becomes "partner present"; "r present" stays.
#[tactic(auto, unfolding(conversion::specs::Conversion::convert_test))]
fn convert_test(n: u8, t: Test) -> Test
    ensures { result ≡ convert_test n t }
{
    if t.present {
        return t;
    }
    Test {
        present: true,
        right: t.right.partner(n),
        ..t
    }
}

// Each where it was.
fn convert_tests(n: u8, t: Tests) -> Tests
    requires { (t.count ≤ 16) × T (padded_tests t) }
    ensures { result ≡ tests_from (map (convert_test n) (tests_of t)) }
{
    let mut list = t.list;
    for test in list[..t.count as usize].iter_mut() {
        *test = convert_test(n, *test);
    }
    Tests {
        count: t.count,
        list,
    }
}

// ---- its operations

// Whether none of them creates or destroys.
pub(crate) fn keep_things(o: Operations) -> bool
    ensures { result ≡ keeps_all (operations_of o) }
{
    o.list
        .iter()
        .take(o.count as usize)
        .all(|one| matches!(one.code, Code::Enter | Code::Delete))
}

// What is done to the partner of an operation's right: the opposite.
fn opposite(c: Code) -> Code
    ensures { result ≡ opposite_of c }
{
    match c {
        Code::Enter => Code::Delete,
        Code::Delete => Code::Enter,
        Code::Create => Code::Create,
        Code::Destroy => Code::Destroy,
    }
}

#[tactic(auto, unfolding(conversion::specs::Conversion::on_partner))]
fn on_partner(n: u8, o: Operation) -> Operation
    ensures { result ≡ on_partner n (opposite_of o.code) o }
{
    Operation {
        code: opposite(o.code),
        right: o.right.partner(n),
        ..o
    }
}

// Each enter and delete with the opposite of its right's partner behind it.
fn convert_operations(n: u8, o: Operations) -> Operations
    requires { (o.count ≤ 16) × T (keeps_all (operations_of o)) }
    ensures { result ≡ operations_from (convert_operations n (operations_of o)) }
{
    let none = Operation {
        code: Code::Enter,
        right: Right(0),
        row: Parameter(0),
        column: Parameter(0),
    };
    let mut list = [none; Operations::PLACES];
    for j in 0..o.count as usize {
        let one = o.list[j];
        let other = on_partner(n, one);
        list[2 * j] = one;
        list[2 * j + 1] = other;
    }
    Operations {
        count: 2 * o.count,
        list,
    }
}

// ---- all of it

#[tactic(auto, using(crate::proofs::CommandLaws::tests_padded, crate::proofs::CommandLaws::command_is))]
pub(crate) fn convert_command(n: u8, c: Command) -> Command
    requires { Convertible c }
    ensures { result ≡ convert_command n c }
{
    Command {
        parameters: c.parameters,
        tests: convert_tests(n, c.tests),
        operations: convert_operations(n, c.operations),
    }
}
