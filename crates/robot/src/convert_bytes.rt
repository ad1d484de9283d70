// The converted bytes of a scheme, and of a matrix of it.
ghost use Rattle.std.specs.Prelude.{◌≡◌, List, ℕ, T};
ghost use Rattle.model.specs.Accepted.{accepted_scheme};
ghost use Rattle.robot.specs.Library.{gives_wrote, convert_scheme_bytes, convert_against, convert_matrix_bytes};
ghost use Rattle.robot.specs.Inner.Calls.{Filled, told, filled};

use crate::check::{matrix_of, scheme_of};
use crate::report::{Called, Place, tell, written};
use model::{Scheme, Things};

fn convert_scheme(scheme: &[u8], out: &mut [u8]) -> Called
    ensures { ◌≡◌ {A = Filled} (told result, out.new) (filled (convert_scheme_bytes scheme.now out.old)) }
{
    let mut s = scheme_bytes::no_scheme();
    scheme_of(scheme, &mut s)?;
    written(convert::convert_scheme(out, s), Place::Scheme)
}

pub fn slushferret_convert_scheme(scheme: &[u8], out: &mut [u8], report: &mut [usize]) -> u8
    ensures { ◌≡◌ {A = ℕ × List ℕ × List ℕ} (result, out.new, report.new) (gives_wrote report.old (convert_scheme_bytes scheme.now out.old)) }
{
    tell(report, convert_scheme(scheme, out))
}

fn convert_of(s: &Scheme, matrix: &[u8], out: &mut [u8]) -> Called
    requires { T (accepted_scheme s.now) }
    ensures { ◌≡◌ {A = Filled} (told result, out.new) (filled (convert_against matrix.now out.old s.now)) }
{
    let mut cells = [0u64; Things::CELLS];
    let (things, _) = matrix_of(matrix, s.head, &mut cells)?;
    written(
        convert::convert_matrix(out, *s, things, &cells),
        Place::Scheme,
    )
}

fn convert_matrix(scheme: &[u8], matrix: &[u8], out: &mut [u8]) -> Called
    ensures { ◌≡◌ {A = Filled} (told result, out.new) (filled (convert_matrix_bytes scheme.now matrix.now out.old)) }
{
    let mut s = scheme_bytes::no_scheme();
    scheme_of(scheme, &mut s)?;
    convert_of(&s, matrix, out)
}

pub fn slushferret_convert_matrix(
    scheme: &[u8],
    matrix: &[u8],
    out: &mut [u8],
    report: &mut [usize],
) -> u8
    ensures { ◌≡◌ {A = ℕ × List ℕ × List ℕ} (result, out.new, report.new) (gives_wrote report.old (convert_matrix_bytes scheme.now matrix.now out.old)) }
{
    tell(report, convert_matrix(scheme, matrix, out))
}
