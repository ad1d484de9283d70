// The cases, as they stand on the input.
use crate::case::{Bytes, Case, length};
use std::io::{Read, Result, Stdin};

// Reads until the buffer is full or the input has ended, and gives how many bytes it put there. It isn't `read_exact`, which refuses what a cut input
// still has: a case that is cut is carried out too.
fn fill(input: &mut Stdin, buf: &mut [u8]) -> Result<usize> {
    let mut done = 0;
    while done < buf.len() {
        let n = input.read(&mut buf[done..])?;
        if n == 0 {
            break;
        }
        done += n;
    }
    Ok(done)
}

// The next case of the input, if there is one, at the start of a buffer.
pub(crate) fn next<'a>(input: &mut Stdin, buffer: &'a mut [u8]) -> Result<Option<Case<'a>>> {
    if buffer.len() < Case::FRONT || fill(input, &mut buffer[..Case::FRONT])? < Case::FRONT {
        return Ok(None);
    }
    let n = length(Bytes(buffer)).min(buffer.len());
    fill(input, &mut buffer[Case::FRONT..n])?;
    Ok(Some(Case::new(buffer)))
}
