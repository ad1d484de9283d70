// Files written whole: under another name first, brought to the disk, then renamed, so that a power cut leaves the old file or the new one. Where
// something fails, the system's reason is told on standard error and the folder is left as it was.
use crate::names::{new_name, text_of};
use crate::told::{Told, tell, tell_error};
use std::fs::{File, OpenOptions};
use std::io::{ErrorKind, Write};
use std::{fmt, fs, io};

// A file that is to be written: its name, the name that it has before it takes its place, and its bytes.
#[derive(Drop)]
pub struct Output<'a> {
    pub(crate) path: &'a str,
    new: String,
    bytes: &'a [u8],
}

// A device or a pipe has nothing that could be brought to the disk, and must not be replaced by a file.
fn check_plain(rt: &HostRuntime, path: &str, file: &File) -> Result<(), Told> {
    file.sync_all().map_err(|error| match error.kind() {
        ErrorKind::InvalidInput => tell(
            rt,
            path.as_bytes(),
            "not a plain file, so that it can't be replaced by one",
        ),
        _ => tell_error(rt, path.as_bytes(), error),
    })
}

// The name has to be free, so that a link which somebody left there isn't followed, and two names of one file are found out.
fn create(rt: &HostRuntime, name: &str) -> io::Result<File> {
    OpenOptions::new()
        .write(true)
        .create_new(true)
        .open(rt, name)
}

// All of the bytes in an open file, on the disk and not only in the system's memory.
fn put_all(file: &mut File, bytes: &[u8]) -> io::Result<()> {
    file.write_all(bytes)?;
    file.sync_all()
}

// What isn't there needs no removing, and what can't be removed is left.
pub(crate) fn remove(rt: &HostRuntime, name: &str) {
    let _ = fs::remove_file(rt, name);
}

impl<'a> Output<'a> {
    // By the word that names it.
    pub fn new(rt: &HostRuntime, word: &'a [u8], bytes: &'a [u8]) -> Result<Output<'a>, Told> {
        let path = text_of(rt, word)?;
        let new = new_name(rt, path)?;
        Ok(Output { path, new, bytes })
    }

    // Whether it may take the place of what has its name: of nothing, or of a plain file. What can't be opened is left to the renaming.
    pub(crate) fn check_place(&self, rt: &HostRuntime) -> Result<(), Told> {
        match OpenOptions::new()
            .read(true)
            .write(true)
            .open(rt, self.path)
        {
            Ok(file) => check_plain(rt, self.path, &file),
            Err(error) if error.kind() == ErrorKind::IsADirectory => {
                Err(tell_error(rt, self.path.as_bytes(), error))
            }
            Err(_) => Ok(()),
        }
    }

    pub(crate) fn remove_new(&self, rt: &HostRuntime) {
        remove(rt, self.new.as_str());
    }

    pub(crate) fn write_new(&self, rt: &HostRuntime) -> Result<(), Told> {
        let name = self.new.as_str();
        let mut file = create(rt, name).map_err(|error| tell_error(rt, name.as_bytes(), error))?;
        put_all(&mut file, self.bytes)
            .map_err(|error| tell_error(rt, name.as_bytes(), error))
            .inspect_err(|_| remove(rt, name))
    }

    pub(crate) fn rename_new(&self, rt: &HostRuntime) -> Result<(), Told> {
        fs::rename(rt, self.new.as_str(), self.path)
            .map_err(|error| tell_error(rt, self.path.as_bytes(), error))
            .inspect_err(|_| self.remove_new(rt))
    }

    pub fn write(&self, rt: &HostRuntime) -> Result<(), Told> {
        self.check_place(rt)?;
        self.remove_new(rt);
        self.write_new(rt)?;
        self.rename_new(rt)
    }
}

// Its name as it was given, and how long it is.
impl fmt::Display for Output<'_> {
    fn fmt<W: fmt::Write>(&self, f: &mut fmt::Formatter<W>) -> fmt::Result {
        write!(f, "{}: {} bytes", self.path, self.bytes.len())
    }
}
