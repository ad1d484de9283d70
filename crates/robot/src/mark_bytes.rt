// Hold and release: the bytes of a matrix with the mark of a thing set or cleared.
ghost use Rattle.std.specs.Prelude.{◌≡◌, List, ℕ, T};
ghost use Rattle.model.specs.Accepted.{accepted_scheme};
ghost use Rattle.robot.specs.Library.{gives_wrote, mark_against, mark_bytes, hold_bytes, release_bytes};
ghost use Rattle.robot.specs.Inner.Calls.{Filled, told, filled};

use crate::check::{matrix_of, scheme_of};
use crate::report::{Called, Failure, Place, tell, written};
use model::{Scheme, Things};

fn mark_of(s: &Scheme, matrix: &[u8], id: u16, mark: bool, out: &mut [u8]) -> Called
    requires { T (accepted_scheme s.now) }
    ensures { ◌≡◌ {A = Filled} (told result, out.new) (filled (mark_against mark matrix.now id out.old s.now)) }
{
    let mut cells = [0u64; Things::CELLS];
    let (mut things, _) = matrix_of(matrix, s.head, &mut cells)?;
    if let Err(fault) = hold::mark_thing(&mut things, id, mark) {
        return Err(Failure::at_start(fault, Place::Matrix));
    }
    written(
        matrix_write::write_matrix(out, *s, things, &cells),
        Place::Matrix,
    )
}

fn mark_bytes(scheme: &[u8], matrix: &[u8], id: u16, mark: bool, out: &mut [u8]) -> Called
    ensures { ◌≡◌ {A = Filled} (told result, out.new) (filled (mark_bytes mark scheme.now matrix.now id out.old)) }
{
    let mut s = scheme_bytes::no_scheme();
    scheme_of(scheme, &mut s)?;
    mark_of(&s, matrix, id, mark, out)
}

pub fn slushferret_hold(
    scheme: &[u8],
    matrix: &[u8],
    id: u16,
    out: &mut [u8],
    report: &mut [usize],
) -> u8
    ensures { ◌≡◌ {A = ℕ × List ℕ × List ℕ} (result, out.new, report.new) (gives_wrote report.old (hold_bytes scheme.now matrix.now id out.old)) }
{
    tell(report, mark_bytes(scheme, matrix, id, true, out))
}

pub fn slushferret_release(
    scheme: &[u8],
    matrix: &[u8],
    id: u16,
    out: &mut [u8],
    report: &mut [usize],
) -> u8
    ensures { ◌≡◌ {A = ℕ × List ℕ × List ℕ} (result, out.new, report.new) (gives_wrote report.old (release_bytes scheme.now matrix.now id out.old)) }
{
    tell(report, mark_bytes(scheme, matrix, id, false, out))
}
