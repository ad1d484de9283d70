// An input file.
use crate::failure::Refusal;
use faults::Fault;
use files::{LONGEST, Told, read_file, tell, text_of};
use records::Refused;

// A file's name as it was given, and its bytes, which stand in a room that the tool lends.
#[derive(Clone, Copy)]
pub(crate) struct Input<'a, 'b> {
    pub(crate) name: &'a str,
    pub(crate) bytes: &'b [u8],
}

impl<'a, 'b> Input<'a, 'b> {
    // A missing file counts as empty, which is told. One that can't be read or is too long ends the tool, since it never works on a part.
    pub(crate) fn load(
        rt: &HostRuntime,
        word: &'a [u8],
        room: &'b mut [u8],
    ) -> Result<Input<'a, 'b>, Told> {
        let name = text_of(rt, word)?;
        let Some(bytes) = read_file(rt, word, room)? else {
            tell(rt, word, "there is no such file, so it counts as empty");
            return Ok(Input { name, bytes: &[] });
        };
        if LONGEST < bytes.len() {
            return Err(tell(rt, word, "longer than 65536 bytes"));
        }
        Ok(Input { name, bytes })
    }

    pub(crate) fn refused(&self, fault: Fault, position: usize) -> Refusal<'a> {
        Refusal {
            name: self.name,
            fault,
            position,
        }
    }

    // By a reader, at a record of these bytes.
    pub(crate) fn refused_at(&self, refused: Refused) -> Refusal<'a> {
        self.refused(refused.fault, refused.at)
    }
}
