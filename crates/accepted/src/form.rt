// What the checks of form look up in a command's lists. A stated count may be above the array's places: no more than those are looked at.
ghost use Rattle.std.specs.Prelude.{◌≡◌, length};
ghost use Rattle.rights.specs.Numberings.{parameter_below};
ghost use Rattle.model.specs.Scheme.{parameters_of, tests_of, type_at, is_create, creatable, destroyable};
ghost use Rattle.model.specs.Accepted.{group, last_group};
ghost use Rattle.accepted.specs.Answers.{before};

use model::{Code, Operations, Parameters, Tests};
use rights::{Numbered, Parameter, ThingType};

pub(crate) fn is_parameter(p: Parameters, row: Parameter) -> bool
    ensures { result ≡ parameter_below row (length (parameters_of p)) }
{
    row.below(p.count) & row.below(Parameters::LIMIT)
}

// The type of a parameter.
#[tactic(auto, unfolding(model::specs::Scheme::type_at))]
pub fn type_at(p: Parameters, row: Parameter) -> ThingType
    ensures { result ≡ type_at (parameters_of p) row }
{
    if is_parameter(p, row) {
        p.types[row.0 as usize]
    } else {
        ThingType(0)
    }
}

// The group of a code: creates, then enters and deletes, then destroys.
pub fn group_of(code: Code) -> u8
    ensures { result ≡ group code }
{
    match code {
        Code::Create => 0,
        Code::Enter | Code::Delete => 1,
        Code::Destroy => 2,
    }
}

pub fn is_create(code: Code) -> bool
    ensures { result ≡ is_create code }
{
    matches!(code, Code::Create)
}

// The group of the last of the first n operations, that of creates where there is none.
pub fn last_group(o: Operations, n: usize) -> u8
    ensures { result ≡ last_group (before o n) }
{
    match o.list[..n.min(Operations::PLACES)].last() {
        Some(one) => group_of(one.code),
        None => 0,
    }
}

// Whether a create of the parameter may stand behind these tests and the first n operations. No early exit: LLVM looks at many places at once then.
pub fn creatable(t: Tests, o: Operations, n: usize, p: Parameter) -> bool
    ensures { result ≡ creatable (tests_of t) (before o n) p }
{
    let tests = &t.list[..Tests::PLACES.min(t.count as usize)];
    let before = &o.list[..Operations::PLACES.min(n)];
    tests.iter().fold(true, |none, one| none & !(one.row.is(p) | one.column.is(p)))
        & before.iter().fold(
            true,
            |none, one| none & !(is_create(one.code) & one.row.is(p)),
        )
}

// Whether a destroy of the parameter may stand behind the first n operations.
pub fn destroyable(o: Operations, n: usize, p: Parameter) -> bool
    ensures { result ≡ destroyable (before o n) p }
{
    let before = &o.list[..Operations::PLACES.min(n)];
    before.iter().fold(
        true,
        |none, one| none & !(matches!(one.code, Code::Destroy) & one.row.is(p)),
    )
}
