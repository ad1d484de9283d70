// What a function of the robots' library tells beside its number: five numbers.

// Which file a refused call is refused for. All other that it is handed is large enough.
#[derive(Clone, Copy, Debug, PartialEq, Eq)]
pub(crate) enum AtFault {
    Scheme,
    Matrix,
}

#[derive(Clone, Copy, Debug, PartialEq, Eq)]
pub(crate) struct Report {
    pub(crate) at_fault: AtFault,
    pub(crate) position: usize,
    // How many bytes.
    pub(crate) written: usize,
    // The number of a record of the list that can't be read.
    pub(crate) bad: Option<usize>,
}

impl From<usize> for AtFault {
    fn from(place: usize) -> AtFault {
        match place {
            2 => AtFault::Matrix,
            _ => AtFault::Scheme,
        }
    }
}

impl From<[usize; 5]> for Report {
    fn from([place, position, _answers, written, bad]: [usize; 5]) -> Report {
        Report {
            at_fault: AtFault::from(place),
            position,
            written,
            bad: (bad != 0).then_some(bad),
        }
    }
}
