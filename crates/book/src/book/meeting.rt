// Meeting blocks: each gets its name.
ghost use Rattle.std.specs.Prelude.{◌≡◌, T, length, nat_le, Decides};
ghost use Rattle.model.specs.Names.{all_below};
ghost use Rattle.model.specs.Blocks.{max_load, byte_limit};
ghost use Rattle.book.specs.Meeting.{shown, Addable, Meets};
ghost use Rattle.book.specs.Books.{blocks, memory};

use super::Book;
use crate::block::Block;
use crate::entry::{MAX_LOAD, MAX_PARENTS};
use crate::refusal::Refusal;

impl Book<'_> {
    /// The name of a block: the one it has if the very same block is in the book, else the next number. A refused block changes nothing.
    pub fn meet(&mut self, block: Block<'_>) -> Result<u32, Refusal>
        ensures lent { memory self.new ≡ memory self.old }
        ensures met { Meets (memory self.old) (blocks self.old) (shown block.entry) result (blocks self.new) }
    {
        if block.parents.len() > MAX_PARENTS {
            return Err(Refusal::TooManyParents);
        }
        if !is_short(block.load) {
            return Err(Refusal::LoadTooLong);
        }
        let next = self.len();
        if !all_below(next, block.parents) {
            return Err(Refusal::NoSuchParent);
        }
        if let Some(name) = self.view().find(block) {
            return Ok(name);
        }
        if !self.tables.has_room(block.parents.len(), block.load.len()) {
            return Err(Refusal::NoRoom);
        }
        self.tables.push(block);
        Ok(next)
    }

    /// Whether `meet` would add the block to the book.
    pub fn would_add(&self, block: Block<'_>) -> bool
        ensures { Decides result (Addable (memory self.now) (blocks self.now) (shown block.entry)) }
    {
        block.parents.len() <= MAX_PARENTS
            && is_short(block.load)
            && self.tables.has_room(block.parents.len(), block.load.len())
            && all_below(self.len(), block.parents)
            && self.view().find(block).is_none()
    }
}

// Whether a block may carry so long a load. That its bytes are bytes, below 256, is known of a slice that is passed alone, and not of one in a Block.
fn is_short(load: &[u8]) -> bool
    ensures short { result ≡ nat_le (length load.now) max_load }
    ensures bytes { T (all_below byte_limit load.now) }
{
    load.len() <= MAX_LOAD
}

// whether each of the names is below a number
fn all_below(limit: u32, names: &[u32]) -> bool
    ensures { result ≡ all_below limit names.now }
{
    names.iter().all(|name| *name < limit)
}
