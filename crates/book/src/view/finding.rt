// Finding a block by what it is.
ghost use Rattle.std.specs.Prelude.{◌≡◌, Decides};
ghost use Rattle.book.specs.Content.{book_of};
ghost use Rattle.book.specs.Views.{held};
ghost use Rattle.book.specs.Meeting.{shown, Found};

use super::View;
use crate::block::Block;
use crate::library::Library;

impl View<'_> {
    /// The name of the very same block, if it is there.
    pub fn find(&self, block: Block<'_>) -> Option<u32>
        ensures { Found (held self.now) (shown block.entry) result }
    {
        (0..self.len()).find(|name| self.is(*name, block))
    }

    // Whether the name stands for the block. Most blocks differ in author or round already, and these are read before the rest is: the == alone
    // reads all of an entry, and takes twice the time of a scan.
    fn is(&self, name: u32, block: Block<'_>) -> bool
        ensures { Decides result (book_of (held self.now) name ≡ shown block.entry) }
    {
        self.author(name) == block.author
            && self.round(name) == block.round
            && self.block(name) == block
    }
}
