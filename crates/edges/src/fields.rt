// The tasks that read a position of the case's bytes, 70 to 75: requests, records, bodies and fields. And 76: the id that all of them name.
use crate::case::{Bytes, Case};
use crate::print::{Line, Told};
use crate::sum;
use faults::Fault;
use records::{Kinds, Refused};
use request_bytes::Request;

// Where a request ended, or that there is none.
fn end(line: &mut Line, answer: Result<Option<usize>, Refused>) {
    match answer {
        Ok(Some(next)) => line.numbers(&[0, next as u64]),
        Ok(None) => line.text(b" end"),
        Err(refused) => line.tell(refused),
    }
}

// The lent one isn't of zeros, so that what the end and a refusal leave shows.
fn read_request(line: &mut Line, b: Bytes, at: usize) {
    let mut request = Request {
        command: u8::MAX,
        count: u8::MAX,
        ids: [u16::MAX; Request::LIMIT],
    };
    end(line, request_bytes::read_request(b.0, at, &mut request));
    line.tell(request.command);
    line.tell(request.count);
    line.tell(sum::numbers(&request.ids));
}

// The kinds stand before the bytes that the record is looked for in.
fn record(line: &mut Line, b: Bytes, at: usize) {
    let kinds = Kinds(b.two_at(0));
    let s = b.behind(2).0;
    line.tell(records::record_at(s, at, kinds));
    line.tell(records::next_record(s, at, kinds));
    line.tell(matrix_records::any_record_at(s, at));
}

// The length stands before the bytes.
fn body(line: &mut Line, b: Bytes, start: usize) {
    let part = records::body(b.behind(8).0, start, b.eight_at(0) as usize);
    line.tell(part.len());
    line.tell(sum::numbers(part));
}

// How a field was read, and its value, 0 for none.
fn field<T: Told>(line: &mut Line, read: Result<T, Fault>, value: T) {
    line.tell(read.map(|_| ()));
    line.tell(value);
}

// The least value, the limit and the fault's number stand before the body.
fn fields(line: &mut Line, b: Bytes, at: usize) {
    let low = b.one_at(0);
    let limit = b.one_at(1);
    let number = b.one_at(2);
    let s = b.behind(3);
    field(line, records::byte_at(s.0, at), s.one_at(at));
    line.tell(records::field_at(s.0, at, low, limit, number));
    field(line, records::field2_at(s.0, at), s.two_at(at));
    field(line, records::field8_at(s.0, at), s.eight_at(at));
}

fn id(line: &mut Line, word: &[u8]) {
    match lines::id_in(word) {
        Some(x) => line.numbers(&[1, x as u64]),
        None => line.tell(0u64),
    }
}

pub(crate) fn task(line: &mut Line, case: Case) {
    let b = case.bytes;
    let at = case.at;
    match case.task {
        70 => read_request(line, b, at),
        71 => end(line, request_bytes::skip_request(b.0, at)),
        72 => line.tell(request_list::count_requests(b.0)),
        73 => record(line, b, at),
        74 => body(line, b, at),
        76 => id(line, b.0),
        _ => fields(line, b, at),
    }
}
