// The tool `run`: carries out a list of requests and writes the matrix afterwards. The answers are printed first: if they can't be, nothing is written.
use crate::failure::Failure;
use crate::input::Input;
use crate::output::write_one;
use crate::report::Report;
use crate::said::say_lines;
use crate::tables::Tables;
use files::{LONGEST, MOST_READ, Told};

// Room for the largest text: that of 10,922 requests is shorter.
const ROOM: usize = 262144;

// Each request that can be read has its answer in front of the results; what is behind those isn't looked at.
fn say_answers(rt: &HostRuntime, requests: &[u8], results: &[u8]) -> Result<(), Told> {
    let mut text = [0; ROOM];
    let n = printout::answers_text(requests, results, &mut text);
    say_lines(rt, &text[..n.min(ROOM)])
}

// The files are read and the list carried out. Gives the list and the matrix afterwards: the other files are gone before there is a text.
fn carried_out<'a, 'b>(
    rt: &HostRuntime,
    (scheme, matrix): (&'a [u8], &'a [u8]),
    (requests, requests_room): (&'a [u8], &'b mut [u8]),
    results: &mut [u8],
    room: &'b mut [u8],
) -> Result<(&'b [u8], &'b [u8], Report), Failure<'a>> {
    let mut scheme_room = [0; MOST_READ];
    let mut matrix_room = [0; MOST_READ];
    let tables = Tables::load(rt, (scheme, &mut scheme_room), (matrix, &mut matrix_room))?;
    let requests = Input::load(rt, requests, requests_room)?;
    let (after, report) = tables.made_by(room, |scheme, matrix, out, report| {
        robot::slushferret_run(scheme, matrix, requests.bytes, results, out, report)
    })?;
    Ok((requests.bytes, after, report))
}

// Never inlined: no other tool takes the stack of these rooms.
#[inline(never)]
pub(crate) fn run<'a>(
    rt: &HostRuntime,
    scheme: &'a [u8],
    matrix: &'a [u8],
    requests: &'a [u8],
    out: &'a [u8],
) -> Result<(), Failure<'a>> {
    let mut requests_room = [0; MOST_READ];
    let mut results = [0; LONGEST];
    let mut room = [0; LONGEST];
    let (requests, after, report) = carried_out(
        rt,
        (scheme, matrix),
        (requests, &mut requests_room),
        &mut results,
        &mut room,
    )?;
    say_answers(rt, requests, &results)?;
    write_one(rt, out, after)?;
    if report.bad.is_some() {
        return Err(Failure::BadList);
    }
    Ok(())
}
