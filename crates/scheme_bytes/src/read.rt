// Reading a scheme on a slice and a position: its commands one by one, and what is behind its head. It is read into a lent table, so that no table is handed
// on by value.
ghost use Rattle.std.specs.Prelude.{◌≡◌, T, replicate};
ghost use Rattle.model.specs.Accepted.{accepted_head};
ghost use Rattle.model.specs.Arrays.{no_command, no_scheme};
ghost use Rattle.records.specs.Results.{item_of};
ghost use Rattle.scheme_bytes.specs.Read.{commands, scheme_rest};
ghost use Rattle.scheme_bytes.specs.Answers.{with_lent};
ghost use Rattle.scheme_bytes.specs.Inner.Parts.{in_places};

use command_bytes::read_command;
use faults::Fault;
use model::{Command, Head, Scheme};
use records::Refused;

// The commands into their places, and the position behind the last.
fn read_commands(
    s: &[u8],
    at: usize,
    h: Head,
    places: &mut [Command; Scheme::PLACES],
) -> Result<usize, Refused>
    requires { T (accepted_head h) × (places.old ≡ replicate 32 no_command) }
    ensures { with_lent places.new result ≡ item_of (in_places (commands s.now h at)) }
{
    let mut next = at;
    for place in places[..h.count as usize].iter_mut() {
        next = read_command(s, next, h, place)?;
    }
    Ok(next)
}

// The commands behind a head, and the end, into a table of none.
#[tactic(auto, using(crate::proofs::ReadLaws::rest_lines))]
pub(crate) fn read_rest(
    s: &[u8],
    at: usize,
    head: Head,
    table: &mut Scheme,
) -> Result<usize, Refused>
    requires { T (accepted_head head) × (table.old ≡ no_scheme) }
    ensures { with_lent table.new result ≡ item_of (scheme_rest s.now head at) }
{
    table.head = head;
    let next = read_commands(s, at, head, &mut table.commands)?;
    if next != s.len() {
        return Err(Refused {
            fault: Fault::Leftover,
            at: next,
        });
    }
    Ok(next)
}
