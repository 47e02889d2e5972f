// What a book lends for reading.
ghost use Rattle.std.specs.Prelude.{◌≤◌, length};
ghost use Rattle.book.specs.Content.{max_blocks, blocks_of, AllPlaced, OneName, Limited, ParentsBefore};

use crate::entry::Entry;

mod finding;
mod reading;

/// A book's blocks, for reading. A name that isn't in the book reads as the empty block: author 0, round 0, no parents, no load.
// The tables as they are lent, in slices. What holds of them is said by ghost fields, and the blocks by the definition `held`: a type that is copied and
// has a lifetime can have no `impl Model`.
#[derive(Clone, Copy)]
pub struct View<'a> {
    pub(crate) entries: &'a [Entry],
    pub(crate) parents: &'a [u32],
    pub(crate) loads: &'a [u8],
    ghost placed: { AllPlaced (length parents.now) (length loads.now) entries.now },
    ghost few: { length entries.now ≤ max_blocks },
    ghost apart: { OneName (blocks_of entries.now parents.now loads.now) },
    ghost limited: { Limited (blocks_of entries.now parents.now loads.now) },
    ghost earlier: { ParentsBefore (blocks_of entries.now parents.now loads.now) },
}
