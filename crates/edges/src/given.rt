// What some tasks are given. The lists are arrays with a count, since a Vec of them could fail in every task that takes one.

// A request that is handed in directly, so that it can have more ids than a record holds.
#[derive(Drop)]
pub(crate) struct Asked {
    pub command: u8,
    pub ids: [u16; Asked::MOST],
    pub count: usize,
}

impl Asked {
    pub(crate) const MOST: usize = 10;

    pub(crate) fn ids(&self) -> &[u16] {
        &self.ids[..self.count.min(Asked::MOST)]
    }
}

// Numbers of eight bytes.
#[derive(Drop)]
pub(crate) struct Numbers {
    pub list: [u64; Numbers::MOST],
    pub count: usize,
}

impl Numbers {
    pub(crate) const MOST: usize = 4;

    pub(crate) fn list(&self) -> &[u64] {
        &self.list[..self.count.min(Numbers::MOST)]
    }
}
