// The words that the program was started with: a tool's name, then its files; an id may stand among them. Outputs are the last ones.
use crate::errand::Errand;
use crate::wrong_use::WrongUse;
use std::env::{Env, FillError};

// No file has a longer name.
const LONGEST_NAME: usize = 4096;

// An output's name that is longer counts as none where it is compared with other words; it is refused in its turn.
const LONGEST_COMPARED: usize = 8192;

// What stands for a word that is longer than a name: of that only the length is looked at.
static LONG: [u8; LONGEST_COMPARED + 1] = [0; LONGEST_COMPARED + 1];

// A tool's name, the most files that one takes, and one word more, which shows that there are too many.
pub(crate) const MOST: usize = 6;

// Room for a word, and its length, of a long one only so much that it shows.
#[derive(Clone, Copy)]
pub(crate) struct Word {
    room: [u8; LONGEST_NAME],
    length: usize,
}

fn length_of_long(rt: &HostRuntime, place: usize) -> usize {
    match rt.arg(place, &mut [0; LONGEST_COMPARED]) {
        Ok(length) => length,
        Err(_) => LONGEST_COMPARED + 1,
    }
}

impl Word {
    pub(crate) const NONE: Word = Word {
        room: [0; LONGEST_NAME],
        length: 0,
    };

    // Gives whether there is a word in this place.
    fn read(&mut self, rt: &HostRuntime, place: usize) -> bool {
        self.length = match rt.arg(place, &mut self.room) {
            Ok(length) => length,
            Err(FillError::TooLong) => length_of_long(rt, place),
            Err(FillError::NotPresent) => return false,
        };
        true
    }

    fn bytes(&self) -> &[u8] {
        if self.length <= LONGEST_NAME {
            &self.room[..self.length]
        } else {
            &LONG[..self.length.min(LONG.len())]
        }
    }
}

// The words behind the program's own name, which may be any bytes (`std::env::args` refuses them all where one isn't text), and how many there are.
pub(crate) fn words<'a>(
    rt: &HostRuntime,
    rooms: &'a mut [Word; MOST],
) -> ([&'a [u8]; MOST], usize) {
    let mut count = 0;
    for place in 0..MOST {
        if !rooms[place].read(rt, place + 1) {
            break;
        }
        count = place + 1;
    }
    (rooms.each_ref().map(|word| word.bytes()), count)
}

// A name without the `./` before it.
fn bare(name: &[u8]) -> &[u8] {
    name.strip_prefix(b"./").unwrap_or(name)
}

// Whether a word is the name under which an output is written before it takes its place.
fn is_new_name(word: &[u8], output: &[u8]) -> bool {
    let name = if output.len() <= LONGEST_COMPARED {
        bare(output)
    } else {
        b""
    };
    bare(word)
        .strip_suffix(b".new")
        .is_some_and(|stem| stem == name)
}

// Whether a word can stand beside the outputs, the last of which is compared first.
fn check_word<'a>(word: &'a [u8], outputs: &[&[u8]]) -> Result<(), WrongUse<'a>> {
    if LONGEST_NAME < word.len() {
        return Err(WrongUse::TooLong);
    }
    if outputs.iter().any(|output| is_new_name(word, output)) {
        return Err(WrongUse::WrittenFirst(word));
    }
    Ok(())
}

// Whether the words can be used together.
fn check_words<'a>(files: &'a [&'a [u8]], outputs: usize) -> Result<(), WrongUse<'a>> {
    let outputs = &files[files.len().saturating_sub(outputs)..];
    for word in files {
        check_word(word, outputs)?;
    }
    match outputs {
        [first, second] if bare(first) == bare(second) => Err(WrongUse::TwoOutputs(second)),
        _ => Ok(()),
    }
}

// What the words ask for.
pub(crate) fn errand_of<'a>(words: &'a [&'a [u8]]) -> Result<Errand<'a>, WrongUse<'a>> {
    let Some((tool, files)) = words.split_first() else {
        return Err(WrongUse::NoTool);
    };
    if tool.is_empty() || LONGEST_NAME < tool.len() {
        return Err(WrongUse::NoTool);
    }
    let errand = Errand::new(tool, files)?;
    check_words(files, errand.outputs())?;
    Ok(errand)
}
