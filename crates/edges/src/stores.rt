// The tasks 40 to 53: a request, a record, bytes, a number of some bytes or text stored at a position of a lent buffer.
use crate::case::{Bytes, Case};
use crate::print::Line;
use crate::{sum, texts};
use faults::Fault;

fn write_request(b: Bytes, at: usize, out: &mut [u8]) -> Result<usize, Fault> {
    let asked = b.asked();
    request_bytes::write_request(out, at, asked.command, asked.ids())
}

// A body of so many zeros.
fn write_zeros(b: Bytes, at: usize, out: &mut [u8]) -> Result<usize, Fault> {
    let zeros = [0u8; 65536];
    let n = (b.eight_at(2) as usize).min(zeros.len());
    records::write_record(out, at, b.two_at(0), &zeros[..n])
}

// The stores answer nothing, so that the position stays.
fn put(task: u8, b: Bytes, at: usize, out: &mut [u8]) -> usize {
    match task {
        43 => records::put1(out, at, b.one_at(0)),
        44 => records::put2(out, at, b.two_at(0)),
        45 => records::put8(out, at, b.eight_at(0)),
        _ => records::put_front(out, b.two_at(0), b.two_at(2)),
    }
    at
}

// The kind of a record stands before its body.
fn store(task: u8, b: Bytes, at: usize, out: &mut [u8]) -> Result<usize, Fault> {
    match task {
        40 => write_request(b, at, out),
        41 => records::write_record(out, at, b.two_at(0), b.behind(2).0),
        42 => write_zeros(b, at, out),
        43..=46 => Ok(put(task, b, at, out)),
        47 => records::write_bytes(out, at, b.0),
        _ => Ok(texts::put(task, b, at, out)),
    }
}

pub(crate) fn task(line: &mut Line, case: Case, out: &mut [u8]) {
    line.tell(store(case.task, case.bytes, case.at, out));
    line.tell(sum::numbers(out));
}
