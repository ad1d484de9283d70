// Values handed in as no reading gives them: a scheme's head and single places of its arrays, set to anything.
use crate::case::Bytes;
use model::{Code, Command, Head, Operation, Operations, Scheme};
use rights::{Parameter, Right, TypeSet};

// n, m, the subject types, how many commands.
pub(crate) fn set_head(b: Bytes, s: &mut Scheme) {
    s.head = Head {
        rights: b.one_at(0),
        types: b.one_at(1),
        subjects: TypeSet(b.two_at(2)),
        count: b.one_at(4),
    };
}

// ---- a command: how many parameters, tests and operations, and one of the operations

pub(crate) fn code(x: u8) -> Code {
    match x {
        1 => Code::Enter,
        2 => Code::Delete,
        3 => Code::Create,
        _ => Code::Destroy,
    }
}

fn operation(b: Bytes) -> Operation {
    Operation {
        code: code(b.one_at(5)),
        right: Right(b.one_at(6)),
        row: Parameter(b.one_at(7)),
        column: Parameter(b.one_at(8)),
    }
}

// ---- a place of the scheme's commands

pub(crate) fn command_at(s: &Scheme, i: usize) -> Command {
    s.commands[i % Scheme::PLACES]
}

// The place is the first of the bytes.
pub(crate) fn put_command(b: Bytes, c: Command, s: &mut Scheme) {
    s.commands[b.one_at(0) as usize % Scheme::PLACES] = c;
}

pub(crate) fn set_command(b: Bytes, s: &mut Scheme) {
    let mut command = command_at(s, b.one_at(0) as usize);
    command.parameters.count = b.one_at(1);
    command.tests.count = b.one_at(2);
    command.operations.count = b.one_at(3);
    let place = b.one_at(4) as usize;
    if place < Operations::PLACES {
        command.operations.list[place] = operation(b);
    }
    put_command(b, command, s);
}
