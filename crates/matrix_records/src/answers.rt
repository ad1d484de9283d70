// What the records of a matrix say, each with the record's kind.
use rights::ThingType;

// The number of things that a head states, and the highest id that there ever was.
#[derive(Clone, Copy, Debug, PartialEq, Eq)]
pub struct FoundHead {
    pub kind: u16,
    pub count: u8,
    pub highest: u16,
}

#[derive(Clone, Copy, Debug, PartialEq, Eq)]
pub struct FoundThing {
    pub kind: u16,
    pub id: u16,
    pub of: ThingType,
}

// A cell with its row's and column's ids, and the place where it is kept.
#[derive(Clone, Copy, Debug, PartialEq, Eq)]
pub struct FoundCell {
    pub kind: u16,
    pub row: u16,
    pub column: u16,
    pub place: usize,
    pub rights: u64,
}
