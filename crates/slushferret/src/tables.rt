// A scheme and a matrix of it, with which most tools begin, and what the robots' library makes of them.
use crate::failure::{Failure, Refusal};
use crate::input::Input;
use crate::report::{AtFault, Report};
use faults::Fault;
use files::Told;

#[derive(Clone, Copy)]
pub(crate) struct Tables<'a, 'b> {
    pub(crate) scheme: Input<'a, 'b>,
    pub(crate) matrix: Input<'a, 'b>,
}

impl<'a, 'b> Tables<'a, 'b> {
    // Each by its word, with the room that it is read into.
    pub(crate) fn load(
        rt: &HostRuntime,
        (scheme, scheme_room): (&'a [u8], &'b mut [u8]),
        (matrix, matrix_room): (&'a [u8], &'b mut [u8]),
    ) -> Result<Tables<'a, 'b>, Told> {
        let scheme = Input::load(rt, scheme, scheme_room)?;
        let matrix = Input::load(rt, matrix, matrix_room)?;
        Ok(Tables { scheme, matrix })
    }

    // The report says which of the two files is at fault.
    fn refused(&self, fault: Fault, report: Report) -> Refusal<'a> {
        let file = match report.at_fault {
            AtFault::Scheme => &self.scheme,
            AtFault::Matrix => &self.matrix,
        };
        file.refused(fault, report.position)
    }

    // What a function of the robots' library writes, which is given both files, a lent room, and a report. It is called in a closure: by its name alone
    // a function of another crate can't be passed, since the toolchain doesn't find its contract.
    pub(crate) fn made_by<'c, F: FnOnce(&[u8], &[u8], &mut [u8], &mut [usize]) -> u8>(
        &self,
        room: &'c mut [u8],
        call: F,
    ) -> Result<(&'c [u8], Report), Failure<'a>>
        requires { F.IsAlwaysCallable call }
    {
        let mut report = [0; 5];
        let number = call(self.scheme.bytes, self.matrix.bytes, room, &mut report);
        let report = Report::from(report);
        if number != 0 {
            return Err(Failure::NothingWritten(self.refused(Fault::from(number), report)));
        }
        Ok((records::body(room, 0, report.written), report))
    }
}
