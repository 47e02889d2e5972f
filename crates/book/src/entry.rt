// The limits of a book, and where a block stands in its tables.

/// A book holds at most so many blocks.
pub const MAX_BLOCKS: usize = 4096;

/// A block has at most so many parents.
pub const MAX_PARENTS: usize = 64;

/// A block carries at most so many bytes.
pub const MAX_LOAD: usize = 256;

/// Where a block stands in the tables: its parents are a stretch of one, its load is a stretch of another.
#[derive(Clone, Copy)]
pub struct Entry {
    pub(crate) author: u32,
    pub(crate) round: u32,
    pub(crate) parents_from: u32,
    pub(crate) parents: u32,
    pub(crate) load_from: u32,
    pub(crate) load: u32,
}

impl Entry {
    /// The entry of the empty block. Memory that is lent to a book can hold anything; this is at hand to make it with.
    pub const EMPTY: Entry = Entry {
        author: 0,
        round: 0,
        parents_from: 0,
        parents: 0,
        load_from: 0,
        load: 0,
    };
}
