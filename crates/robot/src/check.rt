// Whether bytes read as a scheme, or as a matrix of one.
ghost use Rattle.std.specs.Prelude.{◌≡◌, List, ℕ, Result, T, replicate};
ghost use Rattle.model.specs.Accepted.{accepted_scheme};
ghost use Rattle.model.specs.Arrays.{no_scheme};
ghost use Rattle.model.specs.declared.Things.{Things};
ghost use Rattle.scheme_bytes.specs.Answers.{with_lent};
ghost use Rattle.robot.specs.Library.{gives, check_scheme, check_against, check_matrix};
ghost use Rattle.robot.specs.Inner.Calls.{told, scheme_found, matrix_found};
ghost use Rattle.robot.specs.declared.report.Failure.{Failure};

use crate::report::{Called, Failure, Place, Success, tell};
use model::{Head, Scheme, Things};

// A scheme from bytes into a table of none, and its length. It is lent, since a table that is handed on by value is copied each time.
pub(crate) fn scheme_of(scheme: &[u8], s: &mut Scheme) -> Result<usize, Failure>
    requires { s.old ≡ no_scheme }
    ensures { with_lent s.new result ≡ scheme_found scheme.now }
{
    match scheme_bytes::read_scheme(scheme, s) {
        Ok(next) => Ok(next),
        Err(refused) => Err(Failure::at_record(refused, Place::Scheme)),
    }
}

// The things of a matrix from bytes, with its length; its cells stand in the lent ones then. The head is that of a scheme that was read, so it is enough.
pub(crate) fn matrix_of(
    matrix: &[u8],
    h: Head,
    cells: &mut [u64],
) -> Result<(Things, usize), Failure>
    requires { cells.old ≡ replicate 2304 0 }
    ensures { ◌≡◌ {A = Result (Things × ℕ) Failure × List ℕ} (result, cells.new) (matrix_found matrix.now h) }
{
    let mut things = things::no_things();
    match matrix_bytes::read_matrix_by_head(matrix, h, &mut things, cells) {
        Ok(next) => Ok((things, next)),
        Err(refused) => Err(Failure::at_record(refused, Place::Matrix)),
    }
}

fn check_scheme_bytes(scheme: &[u8]) -> Called
    ensures { told result ≡ check_scheme scheme.now }
{
    let mut s = scheme_bytes::no_scheme();
    let next = scheme_of(scheme, &mut s)?;
    Ok(Success::read(next))
}

pub fn slushferret_check_scheme(scheme: &[u8], report: &mut [usize]) -> u8
    ensures { ◌≡◌ {A = ℕ × List ℕ} (result, report.new) (gives report.old (check_scheme scheme.now)) }
{
    tell(report, check_scheme_bytes(scheme))
}

fn check_of(s: &Scheme, matrix: &[u8]) -> Called
    requires { T (accepted_scheme s.now) }
    ensures { told result ≡ check_against matrix.now s.now }
{
    let mut cells = [0u64; Things::CELLS];
    let (_, next) = matrix_of(matrix, s.head, &mut cells)?;
    Ok(Success::read(next))
}

fn check_matrix_bytes(scheme: &[u8], matrix: &[u8]) -> Called
    ensures { told result ≡ check_matrix scheme.now matrix.now }
{
    let mut s = scheme_bytes::no_scheme();
    scheme_of(scheme, &mut s)?;
    check_of(&s, matrix)
}

pub fn slushferret_check_matrix(scheme: &[u8], matrix: &[u8], report: &mut [usize]) -> u8
    ensures { ◌≡◌ {A = ℕ × List ℕ} (result, report.new) (gives report.old (check_matrix scheme.now matrix.now)) }
{
    tell(report, check_matrix_bytes(scheme, matrix))
}
