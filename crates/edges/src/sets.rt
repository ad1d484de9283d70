// The tasks 80 to 83, on a set or a number alone: all that the sets of rights, of types and of kinds and the three numberings are asked.
use crate::case::Bytes;
use crate::print::Line;
use records::Kinds;
use rights::{Numbered, Parameter, Right, RightSet, ThingType, TypeSet};

// A set, a right and a number of rights.
fn rights_of(line: &mut Line, b: Bytes) {
    let set = RightSet(b.eight_at(0));
    let right = Right(b.one_at(8));
    let n = b.one_at(9);
    line.tell(right.partner(n).byte());
    line.tell((right.single(), RightSet::all(n)));
    line.tell((set.has(right), set.is_empty()));
    line.tell((set.enter(right), set.delete(right)));
    line.tell(set.complement(n));
    line.tell((set.within(n), set.count()));
}

// A set, and a type's number and a number of types in one.
fn types_of(line: &mut Line, b: Bytes) {
    let set = TypeSet(b.two_at(0));
    line.tell(set.has(ThingType(b.one_at(2))));
    line.tell(set.within(b.one_at(2)));
}

fn two<T: Numbered>(line: &mut Line, x: T, y: T, is_one: bool) {
    line.tell((x.below(y.byte()), is_one));
    line.tell((x.is_zero(), x.byte()));
}

// Two numbers, in each of the three numberings. Whether two rights are one has no place of its own in the line: it is told with the types' answer, where
// both must be yes, and with the parameters', where one must.
fn numbers(line: &mut Line, x: u8, y: u8) {
    let right = Right(x);
    line.tell(right.below(y));
    line.tell((right.is_zero(), right.byte()));
    let same = right.is(Right(y));
    let (one, other) = (ThingType(x), ThingType(y));
    two(line, one, other, one.is(other) & same);
    let (one, other) = (Parameter(x), Parameter(y));
    two(line, one, other, one.is(other) | same);
}

pub(crate) fn task(line: &mut Line, task: u8, b: Bytes) {
    match task {
        80 => rights_of(line, b),
        81 => types_of(line, b),
        82 => line.tell(Kinds(b.two_at(0)).has(b.two_at(2))),
        _ => numbers(line, b.one_at(0), b.one_at(1)),
    }
}
