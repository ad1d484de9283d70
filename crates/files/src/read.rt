// A file's bytes, in a lent room.
ghost use Rattle.std.specs.Prelude.{◌≤◌, length, IfOk};

use crate::names::text_of;
use crate::told::{Told, tell_error};
use std::fs::File;
use std::io;
use std::io::{ErrorKind, Read};

// The most bytes that a scheme, a matrix or a list of requests has.
pub const LONGEST: usize = 65536;

// The most that is read of one: a byte more shows that it is longer.
pub const MOST_READ: usize = LONGEST + 1;

// Reads until the room is full or the file has ended, and no further, since a device may have no end; gives how many bytes it put there.
fn fill(file: &mut File, room: &mut [u8]) -> io::Result<usize>
    ensures { IfOk result (λ n. n ≤ length room.new) }
{
    let mut done = 0;
    for _ in 0..u64::MAX {
        if room.len() <= done {
            break;
        }
        match file.read(&mut room[done..]) {
            Ok(0) => break,
            Ok(n) => done += n,
            // by a signal, behind which it goes on
            Err(error) if error.kind() == ErrorKind::Interrupted => {}
            Err(error) => return Err(error),
        }
    }
    Ok(done)
}

// What a file holds, if there is one. Of one that is longer than the room only so much as fills it.
pub(crate) fn read<'a>(
    rt: &HostRuntime,
    path: &str,
    room: &'a mut [u8],
) -> io::Result<Option<&'a [u8]>> {
    let mut file = match File::open(rt, path) {
        Ok(file) => file,
        Err(error) if error.kind() == ErrorKind::NotFound => return Ok(None),
        Err(error) => return Err(error),
    };
    let n = fill(&mut file, room)?;
    Ok(Some(&room[..n]))
}

// The same; why a file couldn't be read is told on standard error.
pub fn read_file<'a>(
    rt: &HostRuntime,
    word: &[u8],
    room: &'a mut [u8],
) -> Result<Option<&'a [u8]>, Told> {
    let path = text_of(rt, word)?;
    read(rt, path, room).map_err(|error| tell_error(rt, word, error))
}
