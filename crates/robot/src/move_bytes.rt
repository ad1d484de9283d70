// Moving a stored matrix: the bytes of an image of kind 3 as one of kind 7, and back.
ghost use Rattle.std.specs.Prelude.{◌≡◌, List, ℕ};
ghost use Rattle.robot.specs.Library.{gives_wrote, forward_bytes, back_bytes};
ghost use Rattle.robot.specs.Inner.Calls.{Filled, told, filled};

use crate::check::scheme_of;
use crate::report::{Called, moved, tell};

fn forward(scheme: &[u8], old: &[u8], out: &mut [u8]) -> Called
    ensures { ◌≡◌ {A = Filled} (told result, out.new) (filled (forward_bytes scheme.now old.now out.old)) }
{
    let mut s = scheme_bytes::no_scheme();
    scheme_of(scheme, &mut s)?;
    moved(moving::forward(old, s, out))
}

pub fn slushferret_forward(scheme: &[u8], old: &[u8], out: &mut [u8], report: &mut [usize]) -> u8
    ensures { ◌≡◌ {A = ℕ × List ℕ × List ℕ} (result, out.new, report.new) (gives_wrote report.old (forward_bytes scheme.now old.now out.old)) }
{
    tell(report, forward(scheme, old, out))
}

fn back(scheme: &[u8], matrix: &[u8], out: &mut [u8]) -> Called
    ensures { ◌≡◌ {A = Filled} (told result, out.new) (filled (back_bytes scheme.now matrix.now out.old)) }
{
    let mut s = scheme_bytes::no_scheme();
    scheme_of(scheme, &mut s)?;
    moved(moving::back(matrix, s, out))
}

pub fn slushferret_back(scheme: &[u8], matrix: &[u8], out: &mut [u8], report: &mut [usize]) -> u8
    ensures { ◌≡◌ {A = ℕ × List ℕ × List ℕ} (result, out.new, report.new) (gives_wrote report.old (back_bytes scheme.now matrix.now out.old)) }
{
    tell(report, back(scheme, matrix, out))
}
