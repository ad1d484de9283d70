// The words of the printout around its numbers. The buffer and the position are apart, since `lines`, whose contracts may not change, takes them so.
ghost use Rattle.std.specs.Prelude.{ℕ, ◌≡◌, List};
ghost use Rattle.faults.specs.Numbers.{number_of};
ghost use Rattle.lines.specs.Put.{put_text};
ghost use Rattle.totals.specs.Outcome.{outcome_of};
ghost use Rattle.printout.specs.Text.{heading, bad_line, request_line, end_line};

use faults::Fault;
use model::Reply;
use records::Refused;
use totals::Totals;

// How far a request's line goes: `play` prints up to the test's place, `run` the steps too. It is `pub` so that a law of another crate can name it.
#[derive(Clone, Copy, Debug)]
pub enum Columns {
    ToTest,
    ToSteps,
}

#[tactic(auto, unfolding(crate::specs::Text::heading))]
pub(crate) fn put_heading(out: &mut [u8], columns: Columns) -> usize
    ensures { ◌≡◌ {A = ℕ × List ℕ} (result, out.new) (put_text out.old 0 (heading columns)) }
{
    match columns {
        Columns::ToTest => lines::put_text(out, 0, b"request command result test\n"),
        Columns::ToSteps => lines::put_text(out, 0, b"request command result test steps\n"),
    }
}

pub(crate) fn put_bad(out: &mut [u8], at: usize, refused: Refused) -> usize
    ensures { ◌≡◌ {A = ℕ × List ℕ} (result, out.new) (put_text out.old at (bad_line refused.at (number_of refused.fault))) }
{
    let p = lines::put_text(out, at, b"bad ");
    lines::put_line(out, p, &[refused.at as u64, refused.fault.number() as u64])
}

// A request's place in its list, its command, its result, its test's place, and its steps.
pub(crate) fn put_request(
    out: &mut [u8],
    at: usize,
    columns: Columns,
    place: usize,
    command: u8,
    reply: Reply,
) -> usize
    ensures { ◌≡◌ {A = ℕ × List ℕ} (result, out.new) (put_text out.old at (request_line columns place command reply)) }
{
    let line = [
        place as u64,
        command as u64,
        reply.number as u64,
        reply.test as u64,
        reply.steps as u64,
    ];
    match columns {
        Columns::ToTest => lines::put_line(out, at, &line[..4]),
        Columns::ToSteps => lines::put_line(out, at, &line),
    }
}

pub(crate) fn put_end(out: &mut [u8], at: usize, totals: Result<Totals, Fault>) -> usize
    ensures { ◌≡◌ {A = ℕ × List ℕ} (result, out.new) (put_text out.old at (end_line (outcome_of totals))) }
{
    match totals {
        Ok(
            Totals {
                things,
                cells,
                entries,
            },
        ) => {
            let p = lines::put_text(out, at, b"end ");
            lines::put_line(out, p, &[things as u64, cells as u64, entries as u64])
        }
        Err(fault) => put_bad(out, at, Refused { fault, at: 0 }),
    }
}
