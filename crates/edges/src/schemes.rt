// The tasks 0 to 6, which change the scheme: it or a command of it is read, set, or converted. One whose reading or conversion is refused stays.
use crate::case::Case;
use crate::print::Line;
use crate::values;
use model::Scheme;

// The place that the command is put at stands before the bytes. The command that stood there is lent, and what the reading leaves of it, refused or not, is put
// back.
fn command(line: &mut Line, case: Case, s: &mut Scheme) {
    let mut command = values::command_at(s, case.bytes.one_at(0) as usize);
    let read = command_bytes::read_command(case.bytes.behind(1).0, case.at, s.head, &mut command);
    line.tell(read);
    values::put_command(case.bytes, command, s);
}

pub(crate) fn task(line: &mut Line, case: Case, s: &mut Scheme) {
    let b = case.bytes;
    match case.task {
        0 => line.tell(scheme_bytes::read_scheme(b.0, s)),
        1 => *s = scheme_bytes::no_scheme(),
        2 => values::set_head(b, s),
        3 => values::set_command(b, s),
        4 => line.tell(convert::converted_scheme(s)),
        5 => command(line, case, s),
        6 => values::put_command(b, command_bytes::no_command(), s),
        _ => {}
    }
}
