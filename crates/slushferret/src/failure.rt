// Why a tool didn't do its errand, and the status that the program then ends with.
use crate::said::say;
use crate::wrong_use::WrongUse;
use faults::Fault;
use files::Told;
use std::fmt;
use std::process::ExitCode;

// A file that is refused: its name as it was given, the fault, which is shown as the outline's number, and its position.
#[derive(Clone, Copy, Debug, PartialEq, Eq)]
pub(crate) struct Refusal<'a> {
    pub(crate) name: &'a str,
    pub(crate) fault: Fault,
    pub(crate) position: usize,
}

impl fmt::Display for Refusal<'_> {
    fn fmt<W: fmt::Write>(&self, f: &mut fmt::Formatter<W>) -> fmt::Result {
        write!(
            f,
            "{}: refused with number {} at position {}",
            self.name,
            self.fault.number(),
            self.position
        )
    }
}

#[derive(Clone, Copy, Debug, PartialEq, Eq)]
pub(crate) enum Failure<'a> {
    // A file or standard output that can't be read or written.
    Told(Told),
    // By a tool that writes nothing.
    Refused(Refusal<'a>),
    NothingWritten(Refusal<'a>),
    // A list that ended with `bad`, as its answers say.
    BadList,
    WrongUse(WrongUse<'a>),
}

impl Failure<'_> {
    // Says or tells what wasn't yet, and gives the status. Where a refusal can't be said, that is told.
    pub(crate) fn end(self, rt: &HostRuntime) -> ExitCode {
        match self {
            Failure::Told(Told) | Failure::BadList => {}
            Failure::Refused(refusal) => {
                let _ = say(rt, refusal);
            }
            Failure::NothingWritten(refusal) => {
                let _ = say(rt, format_args!("{refusal}; nothing was written"));
            }
            Failure::WrongUse(wrong) => {
                wrong.tell(rt);
                return ExitCode::from(2);
            }
        }
        ExitCode::FAILURE
    }
}

impl From<Told> for Failure<'_> {
    fn from(told: Told) -> Self {
        Failure::Told(told)
    }
}

impl<'a> From<WrongUse<'a>> for Failure<'a> {
    fn from(wrong: WrongUse<'a>) -> Self {
        Failure::WrongUse(wrong)
    }
}
