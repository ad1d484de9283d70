// What a tool says on standard output. Where that can't be written it is told, and the tool ends.
use files::{Told, tell_error};
use std::fmt::{Display, Write};
use std::io::Print;
use std::{fmt, io};

// A file's name has at most 4,096 bytes, and what is said behind it few.
const ROOM: usize = 8192;

// A line in an array, so that it is written at once.
#[derive(Drop)]
struct Line {
    text: [u8; ROOM],
    length: usize,
}

impl Write for Line {
    // What has no room is refused.
    fn write_str(&mut self, words: &str) -> fmt::Result {
        let end = lines::put_text(&mut self.text, self.length, words.as_bytes());
        if ROOM < end {
            return Err(fmt::Error);
        }
        self.length = end;
        Ok(())
    }
}

fn taken(rt: &HostRuntime, written: io::Result<()>) -> Result<(), Told> {
    written.map_err(|error| tell_error(rt, b"standard output", error))
}

// One that is longer than a line can be is written in parts, since none is cut.
pub(crate) fn say<D: Display + Drop>(rt: &HostRuntime, words: D) -> Result<(), Told> {
    let mut line = Line {
        text: [0; ROOM],
        length: 0,
    };
    match writeln!(line, "{words}") {
        Ok(()) => say_lines(rt, records::body(&line.text, 0, line.length)),
        Err(fmt::Error) => taken(rt, println!(rt; "{words}")),
    }
}

// Lines that stand in a buffer.
pub(crate) fn say_lines(rt: &HostRuntime, lines: &[u8]) -> Result<(), Told> {
    taken(rt, rt.stdout().write_all(lines))
}
