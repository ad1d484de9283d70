// A list of requests on a matrix in bytes, and a request's bytes.
ghost use Rattle.std.specs.Prelude.{◌≡◌, List, ℕ, ◌≤◌, T, length};
ghost use Rattle.model.specs.Seats.{matrix_of};
ghost use Rattle.model.specs.Accepted.{accepted_scheme, accepted_matrix};
ghost use Rattle.request_list.specs.List.{read_list};
ghost use Rattle.robot.specs.Library.{gives_wrote, gives_ran, bytes_after, run_matrix, run_against, run_bytes, request_bytes};
ghost use Rattle.robot.specs.Inner.Parts.{count_in, needed_by};
ghost use Rattle.robot.specs.Inner.Calls.{Answered, told, answered};

use crate::check::{matrix_of, scheme_of};
use crate::report::{Called, Failure, Place, Success, tell, written};
use engine::Ended;
use faults::Fault;
use model::{Reply, Scheme, Things};

// Every matrix's bytes fit into so many.
const LARGEST: usize = 37208;

// How many answers and how many bytes a run will give. It is `pub` so that a law of another crate can name it.
#[derive(Clone, Copy, Debug)]
pub struct Needed {
    pub answers: usize,
    pub bytes: usize,
}

// How many requests were answered.
fn count_of(answer: Result<Ended, Fault>) -> usize
    ensures { result ≡ count_in answer }
{
    match answer {
        Ok(ended) => ended.count,
        Err(_) => 0,
    }
}

// A run on a copy of the things and the cells tells what it will give, before anything is stored.
fn trial_of(s: &Scheme, th: Things, cells: [u64; Things::CELLS], requests: &[u8]) -> Needed
    requires { T (accepted_scheme s.now) × T (accepted_matrix s.now.head (matrix_of th cells)) }
    ensures { result ≡ needed_by s.now (matrix_of th cells) (read_list requests.now) }
{
    let mut things = th;
    let mut trial = cells;
    let answers = count_of(engine::run_quietly(*s, &mut things, &mut trial, requests));
    let mut scratch = [0u8; LARGEST];
    let bytes = matrix_write::write_matrix_by_head(&mut scratch, s.head, things, &trial).unwrap_or(
        0,
    );
    Needed { answers, bytes }
}

// The answers, then the matrix afterwards, which there is room for.
fn run_on(
    s: &Scheme,
    th: &mut Things,
    cells: &mut [u64],
    requests: &[u8],
    answers: &mut [u8],
    out: &mut [u8],
) -> Called
    requires { T (accepted_scheme s.now) × T (accepted_matrix s.now.head (matrix_of th.old cells.old)) × (length (bytes_after s.now (matrix_of th.old cells.old) (read_list requests.now)) ≤ length out.old) }
    ensures { ◌≡◌ {A = Answered} (told result, answers.new, out.new) (answered (run_matrix s.now (matrix_of th.old cells.old) (read_list requests.now) answers.old out.old)) }
{
    match engine::run_list(*s, th, cells, requests, answers) {
        Ok(ended) => Ok(Success {
            at: 0,
            count: ended.count,
            written: matrix_write::write_matrix_by_head(out, s.head, *th, cells).unwrap_or(0),
            cut: ended.cut,
        }),
        Err(fault) => Err(Failure::at_start(fault, Place::Answers)),
    }
}

// A run of a matrix in bytes. Only where the output might be too short is the run tried first.
fn run_of(s: &Scheme, matrix: &[u8], requests: &[u8], answers: &mut [u8], out: &mut [u8]) -> Called
    requires { T (accepted_scheme s.now) }
    ensures { ◌≡◌ {A = Answered} (told result, answers.new, out.new) (answered (run_against matrix.now requests.now answers.old out.old s.now)) }
{
    let mut cells = [0u64; Things::CELLS];
    let (mut things, _) = matrix_of(matrix, s.head, &mut cells)?;
    if out.len() < LARGEST {
        let need = trial_of(s, things, cells, requests);
        if answers.len() / Reply::WIDTH < need.answers {
            return Err(Failure::at_start(Fault::NoRoom, Place::Answers));
        }
        if out.len() < need.bytes {
            return Err(Failure::at_start(Fault::NoRoom, Place::Output));
        }
    }
    run_on(s, &mut things, &mut cells, requests, answers, out)
}

fn run(scheme: &[u8], matrix: &[u8], requests: &[u8], answers: &mut [u8], out: &mut [u8]) -> Called
    ensures { ◌≡◌ {A = Answered} (told result, answers.new, out.new) (answered (run_bytes scheme.now matrix.now requests.now answers.old out.old)) }
{
    let mut s = scheme_bytes::no_scheme();
    scheme_of(scheme, &mut s)?;
    run_of(&s, matrix, requests, answers, out)
}

pub fn slushferret_run(
    scheme: &[u8],
    matrix: &[u8],
    requests: &[u8],
    answers: &mut [u8],
    out: &mut [u8],
    report: &mut [usize],
) -> u8
    ensures { ◌≡◌ {A = ℕ × List ℕ × List ℕ × List ℕ} (result, answers.new, out.new, report.new) (gives_ran report.old (run_bytes scheme.now matrix.now requests.now answers.old out.old)) }
{
    tell(report, run(scheme, matrix, requests, answers, out))
}

pub fn slushferret_write_request(
    command: u8,
    ids: &[u16],
    out: &mut [u8],
    at: usize,
    report: &mut [usize],
) -> u8
    ensures { ◌≡◌ {A = ℕ × List ℕ × List ℕ} (result, out.new, report.new) (gives_wrote report.old (request_bytes out.old at command ids.now)) }
{
    tell(
        report,
        written(
            request_bytes::write_request(out, at, command, ids),
            Place::List,
        ),
    )
}
