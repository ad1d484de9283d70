// The tool `check`: whether a file is a scheme, and another a matrix of it, and how much they hold.
use crate::failure::{Failure, Refusal};
use crate::input::Input;
use crate::said::say;
use files::MOST_READ;
use model::{Head, Scheme, Things};
use totals::Totals;

fn check_scheme<'a>(rt: &HostRuntime, scheme: Input<'a, '_>) -> Result<Scheme, Failure<'a>> {
    let mut s = scheme_bytes::no_scheme();
    if let Err(refused) = scheme_bytes::read_scheme(scheme.bytes, &mut s) {
        return Err(Failure::Refused(scheme.refused_at(refused)));
    }
    let name = scheme.name;
    let Head {
        rights,
        types,
        count,
        ..
    } = s.head;
    say(
        rt,
        format_args!("{name}: a scheme of {rights} rights, {types} types, {count} commands"),
    )?;
    Ok(s)
}

fn totals_of<'a>(s: Scheme, matrix: Input<'a, '_>) -> Result<Totals, Refusal<'a>> {
    let mut th = things::no_things();
    let mut cells = [0; Things::CELLS];
    if let Err(refused) = matrix_bytes::read_matrix(matrix.bytes, s, &mut th, &mut cells) {
        return Err(matrix.refused_at(refused));
    }
    totals::totals(s, th, &cells).map_err(|fault| matrix.refused(fault, 0))
}

fn check_matrix<'a>(rt: &HostRuntime, s: Scheme, matrix: Input<'a, '_>) -> Result<(), Failure<'a>> {
    let Totals {
        things,
        cells,
        entries,
    } = totals_of(s, matrix).map_err(Failure::Refused)?;
    let name = matrix.name;
    say(
        rt,
        format_args!("{name}: a matrix of {things} things, {cells} cells, {entries} entries"),
    )?;
    Ok(())
}

// Both files are loaded first.
// Never inlined: no other tool takes the stack of these rooms.
#[inline(never)]
pub(crate) fn check<'a>(
    rt: &HostRuntime,
    scheme: &'a [u8],
    matrix: Option<&'a [u8]>,
) -> Result<(), Failure<'a>> {
    let mut scheme_room = [0; MOST_READ];
    let mut matrix_room = [0; MOST_READ];
    let scheme = Input::load(rt, scheme, &mut scheme_room)?;
    let matrix = matrix
        .map(|matrix| Input::load(rt, matrix, &mut matrix_room))
        .transpose()?;
    let s = check_scheme(rt, scheme)?;
    match matrix {
        Some(matrix) => check_matrix(rt, s, matrix),
        None => Ok(()),
    }
}
