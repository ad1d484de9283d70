// The tasks 50 to 53: text, numbers and lines of numbers, put at a position of a lent buffer.
use crate::case::Bytes;

fn line(b: Bytes, at: usize, out: &mut [u8]) -> usize {
    lines::put_line(out, at, b.numbers().list())
}

pub(crate) fn put(task: u8, b: Bytes, at: usize, out: &mut [u8]) -> usize {
    match task {
        50 => lines::put_text(out, at, b.0),
        51 => lines::put_decimal(out, at, b.eight_at(0)),
        52 => lines::put_number(out, at, b.eight_at(0), b.one_at(8)),
        _ => line(b, at, out),
    }
}
