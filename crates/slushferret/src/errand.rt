// The list of tools. A further one is a file of its own, and its lines here and in the list that a wrong use is told.
use crate::failure::Failure;
use crate::tool_hold::Marked;
use crate::tool_move::Moved;
use crate::wrong_use::WrongUse;
use crate::{tool_check, tool_convert, tool_hold, tool_move, tool_run};

// A tool, with the words that it was given. Outputs are the last ones.
#[derive(Clone, Copy, Debug, PartialEq, Eq)]
pub(crate) enum Errand<'a> {
    Check {
        scheme: &'a [u8],
        matrix: Option<&'a [u8]>,
    },
    Run {
        scheme: &'a [u8],
        matrix: &'a [u8],
        requests: &'a [u8],
        out: &'a [u8],
    },
    Convert {
        scheme: &'a [u8],
        matrix: &'a [u8],
        robot_scheme: &'a [u8],
        robot_matrix: &'a [u8],
    },
    Hold(Marked<'a>),
    Release(Marked<'a>),
    Forward(Moved<'a>),
    Back(Moved<'a>),
}

impl<'a> Errand<'a> {
    pub(crate) fn new(tool: &'a [u8], files: &'a [&'a [u8]]) -> Result<Errand<'a>, WrongUse<'a>> {
        Ok(match (tool, files) {
            (b"check", [scheme]) => Errand::Check {
                scheme,
                matrix: None,
            },
            (b"check", [scheme, matrix]) => Errand::Check {
                scheme,
                matrix: Some(matrix),
            },
            (b"run", [scheme, matrix, requests, out]) => Errand::Run {
                scheme,
                matrix,
                requests,
                out,
            },
            (b"convert", [scheme, matrix, robot_scheme, robot_matrix]) => Errand::Convert {
                scheme,
                matrix,
                robot_scheme,
                robot_matrix,
            },
            (b"hold", [scheme, matrix, id, out]) => Errand::Hold(Marked {
                scheme,
                matrix,
                id,
                out,
            }),
            (b"release", [scheme, matrix, id, out]) => Errand::Release(Marked {
                scheme,
                matrix,
                id,
                out,
            }),
            (b"forward", [scheme, image, out]) => Errand::Forward(Moved { scheme, image, out }),
            (b"back", [scheme, image, out]) => Errand::Back(Moved { scheme, image, out }),
            (b"check" | b"run" | b"convert" | b"hold" | b"release" | b"forward" | b"back", _) =>
                return Err(WrongUse::OtherCount(tool)),
            _ => return Err(WrongUse::NoSuchTool(tool)),
        })
    }

    pub(crate) fn outputs(self) -> usize {
        match self {
            Errand::Check { .. } => 0,
            Errand::Convert { .. } => 2,
            _ => 1,
        }
    }

    pub(crate) fn carry_out(self, rt: &HostRuntime) -> Result<(), Failure<'a>> {
        match self {
            Errand::Check { scheme, matrix } => tool_check::check(rt, scheme, matrix),
            Errand::Run {
                scheme,
                matrix,
                requests,
                out,
            } => tool_run::run(rt, scheme, matrix, requests, out),
            Errand::Convert {
                scheme,
                matrix,
                robot_scheme,
                robot_matrix,
            } => tool_convert::convert(rt, scheme, matrix, robot_scheme, robot_matrix),
            Errand::Hold(words) => tool_hold::hold(rt, words),
            Errand::Release(words) => tool_hold::release(rt, words),
            Errand::Forward(words) => tool_move::forward(rt, words),
            Errand::Back(words) => tool_move::back(rt, words),
        }
    }
}
