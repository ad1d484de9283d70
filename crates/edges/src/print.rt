// The line that a case prints, put together in memory and written at once, and what can be told on it.
use std::io;
use std::io::{Print, Stdout};

// The longest label has 255 bytes, and no task prints twenty numbers behind it.
const ROOM: usize = 1024;

// An array and its length: a Vec could fail at each number that is put, and every task would have to return that.
#[derive(Drop)]
pub(crate) struct Line {
    text: [u8; ROOM],
    length: usize,
}

// What a line can tell: a number or several, each behind a space.
pub(crate) trait Told: Drop {
    fn tell(self, line: &mut Line);
}

// Why something is refused. What isn't refused tells the numbers of `none`, and then the answer.
pub(crate) trait Why: Told {
    fn none() -> Self;
}

impl Line {
    pub(crate) fn empty() -> Line {
        Line {
            text: [0; ROOM],
            length: 0,
        }
    }

    // Writes what was put, and begins the next line.
    pub(crate) fn end(&mut self, to: &Stdout) -> io::Result<()> {
        self.text(b"\n");
        let length = self.length;
        self.length = 0;
        to.write_all(records::body(&self.text, 0, length))
    }

    pub(crate) fn text(&mut self, bytes: &[u8]) {
        self.length = lines::put_text(&mut self.text, self.length, bytes);
    }

    fn number(&mut self, x: u64) {
        self.text(b" ");
        self.length = lines::put_decimal(&mut self.text, self.length, x);
    }

    pub(crate) fn numbers(&mut self, list: &[u64]) {
        for x in list {
            self.number(*x);
        }
    }

    pub(crate) fn tell<T: Told>(&mut self, what: T) {
        what.tell(self);
    }
}

// ---- numbers; a flag is 1 or 0. One impl for all that goes into a u64 would be one for a Result too, as far as the language knows.

impl Told for bool {
    fn tell(self, line: &mut Line) {
        line.number(self as u64);
    }
}

impl Told for u8 {
    fn tell(self, line: &mut Line) {
        line.number(self as u64);
    }
}

impl Told for u16 {
    fn tell(self, line: &mut Line) {
        line.number(self as u64);
    }
}

impl Told for u32 {
    fn tell(self, line: &mut Line) {
        line.number(self as u64);
    }
}

impl Told for u64 {
    fn tell(self, line: &mut Line) {
        line.number(self);
    }
}

impl Told for usize {
    fn tell(self, line: &mut Line) {
        line.number(self as u64);
    }
}

// ---- several

impl Told for () {
    fn tell(self, _line: &mut Line) {}
}

impl<A: Told, B: Told> Told for (A, B) {
    fn tell(self, line: &mut Line) {
        let (first, second) = self;
        first.tell(line);
        second.tell(line);
    }
}

impl<T: Told, E: Why> Told for Result<T, E> {
    fn tell(self, line: &mut Line) {
        match self {
            Ok(answer) => {
                E::none().tell(line);
                answer.tell(line);
            }
            Err(why) => why.tell(line),
        }
    }
}
