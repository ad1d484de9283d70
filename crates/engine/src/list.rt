// A list of requests as bytes, carried out one by one on a lent matrix.
ghost use Rattle.std.specs.Prelude.{◌≡◌, Ok, T};
ghost use Rattle.model.specs.Seats.{matrix_of};
ghost use Rattle.model.specs.Accepted.{accepted_scheme, accepted_matrix};
ghost use Rattle.engine.specs.Inner.Run.{ran_on};
ghost use Rattle.engine.specs.Given.{Given, Quiet, gives, gives_quietly};
ghost use Rattle.engine.specs.List.{run_on, run_quietly};

use crate::answers::Ended;
use crate::replies::put_reply;
use crate::step::{all_accepted, step_on};
use faults::Fault;
use model::{Reply, Scheme, Things};
use request_bytes::Request;
use request_list::count_requests;

// All requests of a list, on an accepted scheme and matrix; a reply that the buffer has no room for isn't stored.
fn run_all(s: &Scheme, th: &mut Things, cells: &mut [u64], bytes: &[u8], out: &mut [u8]) -> Ended
    requires { T (accepted_scheme s.now) × T (accepted_matrix s.now.head (matrix_of th.old cells.old)) }
    ensures { ◌≡◌ {A = Given} (Ok result, th.new, cells.new, out.new) (gives (ran_on s.now (matrix_of th.old cells.old) bytes.now out.old)) }
{
    let mut n: usize = 0;
    let mut p: usize = 0;
    let mut q = Request::NONE;
    // A loop, since a reading gives the next one's position.
    loop {
        match request_bytes::read_request(bytes, p, &mut q) {
            Ok(Some(next)) => {
                let told = step_on(s, th, cells, q.command, &q.ids[..q.count as usize]);
                put_reply(out, n, told);
                n += 1;
                p = next; // whatever was answered
            }
            Ok(None) => {
                return Ended {
                    count: n,
                    cut: None,
                };
            }
            Err(refused) => {
                return Ended {
                    count: n,
                    cut: Some(refused),
                };
            }
        }
    }
}

// A list of requests: 27 once, then 9 where the replies don't fit, before anything is carried out; then each request in turn.
pub fn run_list(
    s: Scheme,
    th: &mut Things,
    cells: &mut [u64],
    bytes: &[u8],
    out: &mut [u8],
) -> Result<Ended, Fault>
    ensures { ◌≡◌ {A = Given} (result, th.new, cells.new, out.new) (gives (run_on s (matrix_of th.old cells.old) bytes.now out.old)) }
{
    if !all_accepted(s, *th, cells) {
        return Err(Fault::NotAccepted);
    }
    if out.len() / Reply::WIDTH < count_requests(bytes) {
        return Err(Fault::NoRoom);
    }
    Ok(run_all(&s, th, cells, bytes, out))
}

// The same with no reply stored, and so with no 9: whoever needs to know what a list leaves before the answers are told runs it so first.
pub fn run_quietly(
    s: Scheme,
    th: &mut Things,
    cells: &mut [u64],
    bytes: &[u8],
) -> Result<Ended, Fault>
    ensures { ◌≡◌ {A = Quiet} (result, th.new, cells.new) (gives_quietly (run_quietly s (matrix_of th.old cells.old) bytes.now)) }
{
    if !all_accepted(s, *th, cells) {
        return Err(Fault::NotAccepted);
    }
    Ok(run_all(&s, th, cells, bytes, &mut []))
}
