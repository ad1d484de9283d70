// The plain data of the outline: a scheme with its commands, the things of a matrix, and what a request is answered.
#![tactic(auto)]

use rights::{Parameter, Right, ThingType, TypeSet};

// "right present in [row, column]", or absent from it.
#[derive(Clone, Copy)]
pub struct Test {
    pub present: bool,
    pub right: Right,
    pub row: Parameter,
    pub column: Parameter,
}

#[derive(Clone, Copy, Debug, PartialEq, Eq)]
pub enum Code {
    Enter,
    Delete,
    Create,
    Destroy,
}

// A create or a destroy names its parameter as row, and has right 0 and column 0.
#[derive(Clone, Copy)]
pub struct Operation {
    pub code: Code,
    pub right: Right,
    pub row: Parameter,
    pub column: Parameter,
}

// Of each list the first `count` places are used; the others are kept at zero. A count beside an array, here and in a scheme: the robots have no heap, and
// a value with any count, and with anything behind it, may be handed in and is refused with 27 (`scheme_accepted`), which no slice could hold.
#[derive(Clone, Copy)]
pub struct Parameters {
    pub count: u8,
    pub types: [ThingType; Parameters::PLACES],
}

#[derive(Clone, Copy)]
pub struct Tests {
    pub count: u8,
    pub list: [Test; Tests::PLACES],
}

#[derive(Clone, Copy)]
pub struct Operations {
    pub count: u8,
    pub list: [Operation; Operations::PLACES],
}

#[derive(Clone, Copy)]
pub struct Command {
    pub parameters: Parameters,
    pub tests: Tests,
    pub operations: Operations,
}

// The head of a scheme: n rights, m types, which of them are subject types, and how many commands follow.
#[derive(Clone, Copy)]
pub struct Head {
    pub rights: u8,
    pub types: u8,
    pub subjects: TypeSet,
    pub count: u8,
}

#[derive(Clone, Copy)]
pub struct Scheme {
    pub head: Head,
    pub commands: [Command; Scheme::PLACES],
}

// The things of a matrix by seat, where a seat whose id is 0 is free: their ids, types, and marks, which say who is on hold; and the highest id that
// there ever was. The cells are kept apart, in a list of 48 times 48 sets. Three arrays by seat: an id is searched among ids alone, and the theorems of
// seats speak of that list.
#[derive(Clone, Copy)]
pub struct Things {
    pub ids: [u16; Things::LIMIT],
    pub types: [ThingType; Things::LIMIT],
    pub marks: [bool; Things::LIMIT],
    pub highest: u16,
}

// Why a request was refused: the outline's number, and the place, from 0, of the test (14) or of the operation (15 to 17) at fault; 0 with every other
// number.
#[derive(Clone, Copy, Debug, PartialEq, Eq)]
pub struct Refusal {
    pub number: u8,
    pub place: u8,
}

// What is told of it: the outline's number, 0 for success; with 14 the place, from 0, of the test that doesn't hold, with every other number
// `NO_TEST`; and how many tests were evaluated and operations carried out or refused. Three numbers, since they are the three bytes that C finds in the
// answers' buffer.
#[derive(Clone, Copy, Debug, PartialEq, Eq)]
pub struct Reply {
    pub number: u8,
    pub test: u8,
    pub steps: u8,
}

// The limits of the outline. `PLACES` is the same number as an array's length, which is of another type.
impl Parameters {
    pub const LIMIT: u8 = Parameter::LIMIT;

    pub const PLACES: usize = 8;
}

impl Tests {
    pub const LIMIT: u8 = 16;

    pub const PLACES: usize = 16;
}

impl Operations {
    pub const LIMIT: u8 = 32;

    pub const PLACES: usize = 32;
}

impl Scheme {
    pub const LIMIT: u8 = 32;

    pub const PLACES: usize = 32;
}

impl Things {
    pub const LIMIT: usize = 48;

    pub const CELLS: usize = Things::LIMIT * Things::LIMIT;
}

impl Reply {
    // No command has as many tests.
    pub const NO_TEST: u8 = 255;

    // How many bytes it takes in a buffer.
    pub const WIDTH: usize = 3;
}
