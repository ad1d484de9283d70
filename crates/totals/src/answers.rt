// What a matrix has; a module of its own, since in one module `totals` and `Totals` would differ in case only.
#[derive(Clone, Copy, PartialEq, Eq, Debug)]
pub struct Totals {
    pub things: u32,
    pub cells: u32,
    pub entries: u32,
}
