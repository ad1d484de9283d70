// The fields of a test and of an operation.
ghost use Rattle.std.specs.Prelude.{◌≡◌, ◌≤◌, Bool, drop};
ghost use Rattle.records.specs.Results.{value_of};
ghost use Rattle.rights.specs.declared.Parameter.{Parameter};
ghost use Rattle.accepted.specs.Answers.{before};
ghost use Rattle.command_bytes.specs.Read.{type_in, named, test, code_of, by_code, operation, tests_in, operations_in};
ghost use Rattle.command_bytes.specs.Inner.Parts.{three, in_array};
ghost use Rattle.model.specs.Arrays.{tests_from, operations_from};
ghost use Rattle.model.specs.Scheme.{parameters_of, tests_of};

use crate::none::{NO_OPERATION, NO_TEST};
use accepted::{creatable, destroyable, group_of, last_group, type_at};
use faults::Fault;
use model::{Code, Head, Operation, Operations, Parameters, Test, Tests};
use rights::{Parameter, Right, ThingType};

// What a test names behind its sense, and an operation behind its code.
#[derive(Clone, Copy)]
pub(crate) struct Named {
    pub right: Right,
    pub row: Parameter,
    pub column: Parameter,
}

// What tests and operations are read against: the head, and the parameters, of which no more are in use than there are places.
#[derive(Clone, Copy)]
pub(crate) struct Scope {
    pub head: Head,
    pub parameters: Parameters,
    ghost few: { parameters.count ≤ 8 },
}

// The type in the byte at i.
#[tactic(auto, using(crate::proofs::FieldReads::type_lines))]
pub(crate) fn type_in(b: &[u8], i: usize, h: Head) -> Result<ThingType, Fault>
    ensures { result ≡ value_of (type_in h (drop i b.now)) }
{
    let t = records::field_at(b, i, 0, h.types, 5)?;
    Ok(ThingType(t))
}

#[tactic(auto, unfolding(crate::specs::Read::code_of))]
fn code_of(code: u8) -> Code
    ensures { result ≡ code_of code }
{
    match code {
        1 => Code::Enter,
        2 => Code::Delete,
        3 => Code::Create,
        _ => Code::Destroy,
    }
}

impl Scope {
    // A right below `rights`, a row that fits and a column below `columns`, in the three bytes from i on. The number is that of a right and of a column
    // out of range.
    #[tactic(auto, using(crate::proofs::FieldReads::three_lines, crate::proofs::FieldReads::field_within))]
    fn three_at<F: Fn(Parameter) -> bool>(
        self,
        b: &[u8],
        i: usize,
        rights: u8,
        columns: u8,
        number: u8,
        fits: F,
    ) -> Result<Named, Fault>
        requires { F.IsAlwaysCallable fits }
        ensures { (fit : Parameter → Bool) → ((p : Parameter) (r : Bool) → F.post fits p r → r ≡ fit p) → result ≡ value_of (three rights self.parameters.count columns number fit (drop i b.now)) }
    {
        let right = records::field_at(b, i, 0, rights, number)?;
        let row = Parameter(records::field_at(b, i + 1, 0, self.parameters.count, 5)?);
        if !fits(row) {
            return Err(Fault::Form);
        }
        let column = records::field_at(b, i + 2, 0, columns, number)?;
        Ok(Named {
            right: Right(right),
            row,
            column: Parameter(column),
        })
    }

    // A right, a row of a subject type and a column.
    fn named_at(self, b: &[u8], i: usize) -> Result<Named, Fault>
        ensures { result ≡ value_of (named self.head (parameters_of self.parameters) (drop i b.now)) }
    {
        let subjects = self.head.subjects;
        let p = self.parameters;
        self.three_at(
            b,
            i,
            self.head.rights,
            p.count,
            5,
            |row| subjects.has(type_at(p, row)),
        )
    }

    // The test in the four bytes from i on.
    #[tactic(auto, using(crate::proofs::FieldReads::test_lines, crate::proofs::FieldReads::field_within))]
    pub(crate) fn test_at(self, b: &[u8], i: usize) -> Result<Test, Fault>
        ensures { result ≡ value_of (test self.head (parameters_of self.parameters) (drop i b.now)) }
    {
        let sense = records::field_at(b, i, 0, 2, 6)?;
        let found = self.named_at(b, i + 1)?;
        Ok(Test {
            present: sense == 1,
            right: found.right,
            row: found.row,
            column: found.column,
        })
    }

    // The fields behind a code, of an operation behind these tests and the first n operations. A create and a destroy have right 0 and column 0.
    fn by_code(
        self,
        b: &[u8],
        i: usize,
        t: Tests,
        o: Operations,
        n: usize,
        code: Code,
    ) -> Result<Named, Fault>
        ensures { result ≡ value_of (by_code self.head (parameters_of self.parameters) (tests_of t) (before o n) code (drop i b.now)) }
    {
        match code {
            Code::Enter | Code::Delete => self.named_at(b, i),
            Code::Create => self.three_at(b, i, 1, 1, 6, |row| creatable(t, o, n, row)),
            Code::Destroy => self.three_at(b, i, 1, 1, 6, |row| destroyable(o, n, row)),
        }
    }

    // The operation in the four bytes from i on, behind the first n of those that were read.
    #[tactic(auto, using(crate::proofs::FieldReads::operation_lines, crate::proofs::FieldReads::field_within))]
    pub(crate) fn operation_at(
        self,
        b: &[u8],
        i: usize,
        t: Tests,
        o: Operations,
        n: usize,
    ) -> Result<Operation, Fault>
        ensures { result ≡ value_of (operation self.head (parameters_of self.parameters) (tests_of t) (before o n) (drop i b.now)) }
    {
        let code = code_of(records::field_at(b, i, 1, 5, 6)?);
        if group_of(code) < last_group(o, n) {
            return Err(Fault::Form);
        }
        let found = self.by_code(b, i + 1, t, o, n, code)?;
        Ok(Operation {
            code,
            right: found.right,
            row: found.row,
            column: found.column,
        })
    }

    // ---- lists of them

    pub(crate) fn tests_at(self, b: &[u8], i: usize, k: u8) -> Result<Tests, Fault>
        requires { (i ≤ 1024) × (k ≤ 16) }
        ensures { result ≡ value_of (in_array tests_from (tests_in self.head (parameters_of self.parameters) k) (drop i b.now)) }
    {
        let mut list = [NO_TEST; Tests::PLACES];
        for j in 0..k as usize {
            list[j] = self.test_at(b, i + 4 * j)?;
        }
        Ok(Tests { count: k, list })
    }

    pub(crate) fn operations_at(
        self,
        b: &[u8],
        i: usize,
        t: Tests,
        k: u8,
    ) -> Result<Operations, Fault>
        requires { (i ≤ 1024) × (k ≤ 32) }
        ensures { result ≡ value_of (in_array operations_from (operations_in self.head (parameters_of self.parameters) (tests_of t) k) (drop i b.now)) }
    {
        let mut list = [NO_OPERATION; Operations::PLACES];
        for j in 0..k as usize {
            list[j] = self.operation_at(b, i + 4 * j, t, Operations { count: k, list }, j)?;
        }
        Ok(Operations { count: k, list })
    }
}
