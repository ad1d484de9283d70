// The tools `forward` and `back`: a stored matrix as an image of the other kind.
use crate::failure::Failure;
use crate::output::write_one;
use crate::tables::Tables;
use files::{LONGEST, MOST_READ};

// The words that both are given.
#[derive(Clone, Copy, Debug, PartialEq, Eq)]
pub(crate) struct Moved<'a> {
    pub(crate) scheme: &'a [u8],
    pub(crate) image: &'a [u8],
    pub(crate) out: &'a [u8],
}

// By a function of the robots' library.
// Never inlined: no other tool takes the stack of these rooms.
#[inline(never)]
fn move_image<'a, F: FnOnce(&[u8], &[u8], &mut [u8], &mut [usize]) -> u8>(
    rt: &HostRuntime,
    words: Moved<'a>,
    call: F,
) -> Result<(), Failure<'a>>
    requires { F.IsAlwaysCallable call }
{
    let mut scheme_room = [0; MOST_READ];
    let mut image_room = [0; MOST_READ];
    let tables = Tables::load(
        rt,
        (words.scheme, &mut scheme_room),
        (words.image, &mut image_room),
    )?;
    let mut room = [0; LONGEST];
    let (after, _) = tables.made_by(&mut room, call)?;
    Ok(write_one(rt, words.out, after)?)
}

pub(crate) fn forward<'a>(rt: &HostRuntime, words: Moved<'a>) -> Result<(), Failure<'a>> {
    move_image(rt, words, |scheme, old, after, report| {
        robot::slushferret_forward(scheme, old, after, report)
    })
}

pub(crate) fn back<'a>(rt: &HostRuntime, words: Moved<'a>) -> Result<(), Failure<'a>> {
    move_image(rt, words, |scheme, matrix, after, report| {
        robot::slushferret_back(scheme, matrix, after, report)
    })
}
