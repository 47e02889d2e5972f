// Reading a block by its name.
ghost use Rattle.std.specs.Prelude.{◌≡◌, length};
ghost use Rattle.book.specs.Content.{book_of, block_at, Placed};
ghost use Rattle.book.specs.Meeting.{shown};
ghost use Rattle.book.specs.Views.{held};

use super::View;
use crate::block::Block;
use crate::entry::Entry;
use crate::library::Library;

impl<'a> View<'a> {
    /// How many blocks there are: their names are the numbers below it.
    pub fn len(&self) -> u32
        ensures { result ≡ length (held self.now) }
    {
        self.entries.len() as u32
    }

    /// The block of this name.
    pub fn block(&self, name: u32) -> Block<'a>
        ensures { shown result ≡ book_of (held self.now) name }
    {
        let entry = self.entry(name);
        let parents_from = entry.parents_from as usize;
        let load_from = entry.load_from as usize;
        let View { parents, loads, .. } = *self;
        Block {
            author: entry.author,
            round: entry.round,
            parents: &parents[parents_from..parents_from + entry.parents as usize],
            load: &loads[load_from..load_from + entry.load as usize],
        }
    }

    /// The names of a block's parents.
    pub fn parents_of(&self, name: u32) -> &'a [u32]
        ensures { result.now ≡ (book_of (held self.now) name).parents }
    {
        self.block(name).parents
    }

    /// The bytes that a block carries.
    pub fn load(&self, name: u32) -> &'a [u8]
        ensures { result.now ≡ (book_of (held self.now) name).load }
    {
        self.block(name).load
    }

    // where the block stands; where the empty one would, for a name that isn't there
    fn entry(&self, name: u32) -> Entry
        ensures block { block_at self.now.parents.now self.now.loads.now result ≡ book_of (held self.now) name }
        ensures placed { Placed (length self.now.parents.now) (length self.now.loads.now) result }
    {
        self.entries
            .get(name as usize)
            .copied()
            .unwrap_or(Entry::EMPTY)
    }
}

impl Library for View<'_> {
    ghost what = { λ v. book_of (held v) };

    fn author(&self, name: u32) -> u32 {
        self.entry(name).author
    }

    fn round(&self, name: u32) -> u32 {
        self.entry(name).round
    }

    fn parents(&self, name: u32) -> u32 {
        self.entry(name).parents
    }

    fn parent(&self, name: u32, at: u32) -> u32 {
        self.parents_of(name).get(at as usize).copied().unwrap_or(0)
    }
}
