// The tool `convert`: a scheme and a matrix for the robots, both or neither.
use crate::failure::Failure;
use crate::output::write_two;
use crate::tables::Tables;
use files::{LONGEST, MOST_READ};

// Never inlined: no other tool takes the stack of these rooms.
#[inline(never)]
pub(crate) fn convert<'a>(
    rt: &HostRuntime,
    scheme: &'a [u8],
    matrix: &'a [u8],
    robot_scheme: &'a [u8],
    robot_matrix: &'a [u8],
) -> Result<(), Failure<'a>> {
    let mut scheme_room = [0; MOST_READ];
    let mut matrix_room = [0; MOST_READ];
    let tables = Tables::load(rt, (scheme, &mut scheme_room), (matrix, &mut matrix_room))?;
    // The matrix comes first, since its own fault is told before 20 to 22 of the scheme.
    let mut made_matrix = [0; LONGEST];
    let (matrix, _) = tables.made_by(&mut made_matrix, |scheme, matrix, out, report| {
        robot::slushferret_convert_matrix(scheme, matrix, out, report)
    })?;
    let mut made_scheme = [0; LONGEST];
    let (scheme, _) = tables.made_by(&mut made_scheme, |scheme, _, out, report| {
        robot::slushferret_convert_scheme(scheme, out, report)
    })?;
    Ok(write_two(rt, (robot_scheme, scheme), (robot_matrix, matrix))?)
}
