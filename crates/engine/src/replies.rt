// What is told of a request, and its bytes in a buffer.
ghost use Rattle.std.proofs.Math.Option.{some};
ghost use Rattle.std.specs.Prelude.{◌≡◌, ◌*◌, ◌≤◌};
ghost use Rattle.std.proofs.lemmas.List.Edits.{sets};
ghost use Rattle.model.specs.Answers.{takes, steps_of, in_all, reply_of, reply_width, reply_bytes};
ghost use Rattle.engine.specs.Inner.Carry.{answer_of};

use model::{Refusal, Reply};

// What is told of a refusal, of a command with so many tests. No step is counted: the fault's place tells how many were taken.
fn refusal_reply(r: Refusal, tests: u8) -> Reply
    requires { in_all (steps_of (takes tests 0) (some r)) ≤ 48 }
    ensures { result ≡ reply_of (takes tests 0) (some r) }
{
    let number = r.number;
    match number {
        14 => Reply {
            number,
            test: r.place,
            steps: r.place + 1,
        },
        15..=17 => Reply {
            number,
            test: Reply::NO_TEST,
            steps: tests + r.place + 1,
        },
        _ => Reply {
            number,
            test: Reply::NO_TEST,
            steps: 0,
        },
    }
}

// What is told, of a command with so many tests and operations.
pub(crate) fn reply(answer: Result<(), Refusal>, tests: u8, operations: u8) -> Reply
    requires { in_all (steps_of (takes tests operations) (answer_of answer)) ≤ 48 }
    ensures { result ≡ reply_of (takes tests operations) (answer_of answer) }
{
    match answer {
        Ok(()) => Reply {
            number: 0,
            test: Reply::NO_TEST,
            steps: tests + operations,
        },
        Err(r) => refusal_reply(r, tests),
    }
}

// The reply to request n, behind those to the requests before it, as far as there is room: past the end `put1` stores nothing, and the test is there
// for the product.
pub(crate) fn put_reply(out: &mut [u8], n: usize, r: Reply)
    ensures { out.new ≡ sets out.old (n * reply_width) (reply_bytes r) }
{
    if n <= out.len() / Reply::WIDTH {
        let at = n * Reply::WIDTH;
        records::put1(out, at, r.number);
        records::put1(out, at + 1, r.test);
        records::put1(out, at + 2, r.steps);
    }
}
