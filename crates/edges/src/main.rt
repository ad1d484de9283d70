// Carries out the cases that stand on its input, each at the edge of a refusal number, and prints a line for each. The independent program
// makes the cases and what must be printed, so a difference is an error in one of the two.
#![tactic(auto)]

mod case;
mod checks;
mod fields;
mod given;
mod input;
mod lent;
mod matrices;
mod moves;
mod outputs;
mod parts;
mod pattern;
mod plans;
mod print;
mod requests;
mod schemes;
mod sets;
mod stores;
mod sum;
mod texts;
mod told;
mod values;

use case::Case;
use lent::Lent;
use model::{Scheme, Things};
use print::Line;
use std::io::{Result, Stdin, Stdout};

// A task is told by its number alone, here and in the files of the tasks: the numbers are the input's format, and an enum would name each of the 61 twice
// more, where it is read and where it is done.
fn run(line: &mut Line, case: Case, lent: &mut Lent) {
    match case.task / 10 {
        0 => schemes::task(line, case, lent.scheme),
        1 => matrices::task(line, case, lent),
        2 => requests::task(line, case, lent),
        3 => outputs::task(line, case, lent),
        4 | 5 => stores::task(line, case, lent.out),
        6 => checks::task(line, case, lent),
        7 => fields::task(line, case),
        8 => sets::task(line, case.task, case.bytes),
        9 => parts::task(line, case, lent),
        10 => moves::task(line, case, lent),
        _ => {}
    }
}

// What the cases share: a scheme and a matrix, with more cells than one has, and a buffer. The bytes of it that a case is lent hold the pattern.
#[derive(Drop)]
struct Shared {
    scheme: Scheme,
    things: Things,
    cells: [u64; 2400],
    space: [u8; 65600],
}

impl Shared {
    // Then puts the sum of the matrix afterwards.
    fn carry_out(&mut self, line: &mut Line, case: Case) {
        let room = case.room.min(self.space.len());
        let count = case.cells.min(self.cells.len());
        let cells = &mut self.cells[..];
        let space = &mut self.space[..];
        let mut lent = Lent {
            scheme: &mut self.scheme,
            things: &mut self.things,
            cells: &mut cells[..count],
            out: &mut space[..room],
        };
        pattern::bytes(lent.out);
        run(line, case, &mut lent);
        line.tell(sum::matrix(&self.things, &self.cells));
    }
}

// One case behind the other, a line for each; there are fewer than that.
fn run_all(
    input: &mut Stdin,
    output: &Stdout,
    buffer: &mut [u8],
    shared: &mut Shared,
) -> Result<()> {
    let mut line = Line::empty();
    for _ in 0..65536 {
        let Some(case) = input::next(input, buffer)? else {
            break;
        };
        line.text(case.label);
        shared.carry_out(&mut line, case);
        line.end(output)?;
    }
    Ok(())
}

fn main(rt: HostRuntime) -> Result<()> {
    let mut buffer = [0; Case::LONGEST];
    let mut shared = Shared {
        scheme: scheme_bytes::no_scheme(),
        things: things::no_things(),
        cells: [0; 2400],
        space: [0; 65600],
    };
    run_all(&mut rt.stdin(), &rt.stdout(), &mut buffer, &mut shared)
}
