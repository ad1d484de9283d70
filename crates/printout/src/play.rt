// The printout of a scheme, a matrix and a list of requests.
ghost use Rattle.std.specs.Prelude.{◌≡◌, List, ℕ, ◌≤◌, T, length, drop};
ghost use Rattle.std.proofs.lemmas.List.Edits.{sets};
ghost use Rattle.model.specs.Answers.{replies_in};
ghost use Rattle.model.specs.Seats.{matrix_of};
ghost use Rattle.model.specs.Accepted.{accepted_scheme, accepted_matrix};
ghost use Rattle.lines.specs.Put.{put_text};
ghost use Rattle.request_list.specs.List.{read_list};
ghost use Rattle.printout.specs.Text.{run_text, answers_text, input, play_text};
ghost use Rattle.printout.specs.Inner.Ending.{answer_line, list_text, with_bad};

use crate::text::{Columns, put_bad, put_end, put_heading, put_request};
use model::{Reply, Scheme, Things};
use records::Refused;
use request_bytes::Request;

// Of a longer file only so many bytes are the input.
const LONGEST: usize = 65536;

#[tactic(auto, using(std::proofs::lemmas::List::take_min), unfolding(crate::specs::Text::input))]
fn input(bytes: &[u8]) -> &[u8]
    ensures { result.now ≡ input bytes.now }
{
    &bytes[..LONGEST.min(bytes.len())]
}

// The line of request n by the first of the replies that are left, where there is one; and the replies behind it.
fn put_answer<'a>(
    out: &mut [u8],
    at: usize,
    columns: Columns,
    n: usize,
    command: u8,
    replies: &'a [u8],
) -> (usize, &'a [u8])
    ensures put { ◌≡◌ {A = ℕ × List ℕ} (result.0, out.new) (put_text out.old at (answer_line columns n command (replies_in replies.now))) }
    ensures behind { replies_in result.1.now ≡ drop 1 (replies_in replies.now) }
{
    match replies.split_first_chunk::<{ Reply::WIDTH }>() {
        Some((&[number, test, steps], behind)) => {
            let reply = Reply {
                number,
                test,
                steps,
            };
            (put_request(out, at, columns, n, command, reply), behind)
        }
        None => (at, replies),
    }
}

// A line for each request of a list, with its reply, and one for a record that can't be read. A loop, since a reading gives the next one's position.
fn put_requests(out: &mut [u8], at: usize, columns: Columns, bytes: &[u8], replies: &[u8]) -> usize
    ensures { ◌≡◌ {A = ℕ × List ℕ} (result, out.new) (put_text out.old at (list_text columns 0 (read_list bytes.now) (replies_in replies.now))) }
{
    let mut n: usize = 0;
    let mut p: usize = 0;
    let mut to = at;
    let mut left = replies;
    let mut q = Request::NONE;
    loop {
        match request_bytes::read_request(bytes, p, &mut q) {
            Ok(Some(next)) => {
                (to, left) = put_answer(out, to, columns, n, q.command, left);
                n += 1;
                p = next;
            }
            Ok(None) => return to,
            Err(refused) => return put_bad(out, to, refused),
        }
    }
}

// The heading, the requests with their replies, and what the matrix then has. A list has no more requests than bytes, so all replies have room; and how
// the list ended is printed behind its requests.
fn put_run(s: Scheme, th: &mut Things, cells: &mut [u64], requests: &[u8], out: &mut [u8]) -> usize
    requires { T (accepted_scheme s) × T (accepted_matrix s.head (matrix_of th.old cells.old)) × (length requests.now ≤ 65536) }
    ensures { ◌≡◌ {A = ℕ × List ℕ} (result, out.new) (put_text out.old 0 (run_text s (matrix_of th.old cells.old) (read_list requests.now))) }
{
    let mut replies = [0u8; LONGEST * Reply::WIDTH];
    let _ = engine::run_list(s, th, cells, requests, &mut replies);
    let heading = put_heading(out, Columns::ToTest);
    let lines = put_requests(out, heading, Columns::ToTest, requests, &replies);
    put_end(out, lines, totals::totals(s, *th, cells))
}

// The text where the scheme and the matrix can be read; else nothing yet.
fn put_play(scheme: &[u8], matrix: &[u8], requests: &[u8], out: &mut [u8]) -> Result<usize, Refused>
    ensures { with_bad (result, out.new) ≡ put_text out.old 0 (play_text scheme.now matrix.now requests.now) }
{
    let mut s = scheme_bytes::no_scheme();
    scheme_bytes::read_scheme(input(scheme), &mut s)?;
    let mut th = things::no_things();
    let mut cells = [0u64; Things::CELLS];
    matrix_bytes::read_matrix(input(matrix), s, &mut th, &mut cells)?;
    Ok(put_run(s, &mut th, &mut cells, input(requests), out))
}

// The text from the start of the output on, as far as there is room, and its length.
pub fn printout(scheme: &[u8], matrix: &[u8], requests: &[u8], out: &mut [u8]) -> usize
    ensures { ◌≡◌ {A = ℕ × List ℕ} (result, out.new) (length (play_text scheme.now matrix.now requests.now), sets out.old 0 (play_text scheme.now matrix.now requests.now)) }
{
    match put_play(scheme, matrix, requests, out) {
        Ok(end) => end,
        Err(refused) => put_bad(out, 0, refused),
    }
}

// The same lines with the steps, for replies that were stored before: the heading and the requests, as far as there are replies to them.
pub fn answers_text(requests: &[u8], replies: &[u8], out: &mut [u8]) -> usize
    ensures { ◌≡◌ {A = ℕ × List ℕ} (result, out.new) (length (answers_text requests.now replies.now), sets out.old 0 (answers_text requests.now replies.now)) }
{
    let heading = put_heading(out, Columns::ToSteps);
    put_requests(out, heading, Columns::ToSteps, input(requests), replies)
}
