// Words that the program can't be used with.
use files::tell;

// What is wrong, with the word that it is told of.
#[derive(Clone, Copy, Debug, PartialEq, Eq)]
pub(crate) enum WrongUse<'a> {
    NoTool,
    NoSuchTool(&'a [u8]),
    OtherCount(&'a [u8]),
    TooLong,
    WrittenFirst(&'a [u8]),
    TwoOutputs(&'a [u8]),
    NotAnId(&'a [u8]),
}

const TOOLS: [&str; 8] = [
    "expected: ./slushferret TOOL FILE.., with one of these tools",
    "  check SCHEME [MATRIX]                             whether they can be read, and how much they hold",
    "  run SCHEME MATRIX REQUESTS OUT                    carries out the requests and writes the matrix afterwards",
    "  convert SCHEME MATRIX ROBOT-SCHEME ROBOT-MATRIX   writes both as the robots have them, without tests of absence",
    "  hold SCHEME MATRIX ID OUT                         puts the thing with this id on hold and writes the matrix afterwards",
    "  release SCHEME MATRIX ID OUT                      releases the thing with this id and writes the matrix afterwards",
    "  forward SCHEME OLD NEW                            turns a matrix as it was stored before the highest id (kind 3) into one with it (kind 7)",
    "  back SCHEME NEW OLD                               turns it back, where the highest id is the highest listed one",
];

impl<'a> WrongUse<'a> {
    // The word, where it is told, and what is told behind it.
    fn reason(self) -> Option<(&'a [u8], &'static str)> {
        Some(match self {
            WrongUse::NoTool | WrongUse::TooLong => return None,
            WrongUse::NoSuchTool(word) => (word, "there is no such tool"),
            WrongUse::OtherCount(word) => (word, "takes another number of files"),
            WrongUse::WrittenFirst(word) => (
                word,
                "another output is written under this name first",
            ),
            WrongUse::TwoOutputs(word) => (word, "two outputs of this name"),
            WrongUse::NotAnId(word) => (word, "not an id of one to five digits"),
        })
    }

    // Tells it, and then which tools there are.
    pub(crate) fn tell(self, rt: &HostRuntime) {
        if let Some((word, reason)) = self.reason() {
            tell(rt, word, reason);
        }
        if matches!(self, WrongUse::TooLong) {
            let _ = eprintln!(rt; "a word of more than 4096 bytes: File name too long");
        }
        for line in TOOLS {
            let _ = eprintln!(rt; "{line}");
        }
    }
}
