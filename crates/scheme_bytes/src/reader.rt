// A scheme is a head and its commands, then the end: the thin reader that holds the slice.
ghost use Rattle.std.specs.Prelude.{◌≡◌, T, ℕ, Result};
ghost use Rattle.model.specs.Accepted.{accepted_head};
ghost use Rattle.model.specs.Arrays.{no_scheme};
ghost use Rattle.model.specs.declared.Scheme.{Scheme};
ghost use Rattle.records.specs.Results.{item_of};
ghost use Rattle.records.specs.declared.Refused.{Refused};
ghost use Rattle.command_bytes.specs.Answers.{read_head};
ghost use Rattle.scheme_bytes.specs.Read.{scheme_rest};
ghost use Rattle.scheme_bytes.specs.Answers.{read_scheme, scheme_result, with_lent};

use crate::none::no_scheme;
use crate::read::read_rest;
use command_bytes::read_head;
use model::{Head, Scheme};
use records::Refused;

#[derive(Clone, Copy)]
struct SchemeReader<'a> {
    input: &'a [u8],
}

impl<'a> SchemeReader<'a> {
    // The head, at the start of the input, and the position behind it.
    fn head(self) -> Result<(Head, usize), Refused>
        ensures { result ≡ read_head self.entry.input.now 0 }
    {
        read_head(self.input, 0)
    }

    // The scheme of this head into a table of none, from the commands behind it up to the end.
    fn rest(self, from: usize, head: Head, table: &mut Scheme) -> Result<usize, Refused>
        requires { T (accepted_head head) × (table.old ≡ no_scheme) }
        ensures { with_lent table.new result ≡ item_of (scheme_rest self.entry.input.now head from) }
    {
        read_rest(self.input, from, head, table)
    }
}

// The whole of an input as a scheme, into the table; where it is refused, the table stays as it is.
#[tactic(auto, using(crate::proofs::ReadLaws::scheme_lines, crate::proofs::ReadLaws::head_good))]
pub fn read_scheme(s: &[u8], table: &mut Scheme) -> Result<usize, Refused>
    ensures { ◌≡◌ {A = Result ℕ Refused × Scheme} (result, table.new) (scheme_result (read_scheme s.now table.old)) }
{
    let reader = SchemeReader { input: s };
    let (head, from) = reader.head()?;
    let mut read = no_scheme();
    let next = reader.rest(from, head, &mut read)?;
    *table = read;
    Ok(next)
}
