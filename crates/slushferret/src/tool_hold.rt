// The tools `hold` and `release`: the matrix with the mark of a thing set or cleared.
use crate::failure::Failure;
use crate::output::write_one;
use crate::tables::Tables;
use crate::wrong_use::WrongUse;
use files::{LONGEST, MOST_READ};

// The words that both are given.
#[derive(Clone, Copy, Debug, PartialEq, Eq)]
pub(crate) struct Marked<'a> {
    pub(crate) scheme: &'a [u8],
    pub(crate) matrix: &'a [u8],
    pub(crate) id: &'a [u8],
    pub(crate) out: &'a [u8],
}

fn id_of(word: &[u8]) -> Result<u16, WrongUse<'_>> {
    lines::id_in(word).ok_or(WrongUse::NotAnId(word))
}

// By a function of the robots' library, which gets the id between the files and the room for its output.
// Never inlined: no other tool takes the stack of these rooms.
#[inline(never)]
fn mark<'a, F: FnOnce(&[u8], &[u8], u16, &mut [u8], &mut [usize]) -> u8>(
    rt: &HostRuntime,
    words: Marked<'a>,
    id: u16,
    call: F,
) -> Result<(), Failure<'a>>
    requires { F.IsAlwaysCallable call }
{
    let mut scheme_room = [0; MOST_READ];
    let mut matrix_room = [0; MOST_READ];
    let tables = Tables::load(
        rt,
        (words.scheme, &mut scheme_room),
        (words.matrix, &mut matrix_room),
    )?;
    let mut room = [0; LONGEST];
    let (after, _) = tables.made_by(&mut room, |scheme, matrix, after, report| {
        call(scheme, matrix, id, after, report)
    })?;
    Ok(write_one(rt, words.out, after)?)
}

pub(crate) fn hold<'a>(rt: &HostRuntime, words: Marked<'a>) -> Result<(), Failure<'a>> {
    let id = id_of(words.id)?;
    mark(rt, words, id, |scheme, matrix, id, after, report| {
        robot::slushferret_hold(scheme, matrix, id, after, report)
    })
}

pub(crate) fn release<'a>(rt: &HostRuntime, words: Marked<'a>) -> Result<(), Failure<'a>> {
    let id = id_of(words.id)?;
    mark(rt, words, id, |scheme, matrix, id, after, report| {
        robot::slushferret_release(scheme, matrix, id, after, report)
    })
}
