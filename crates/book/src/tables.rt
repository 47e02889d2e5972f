// The tables of a book, in lent memory: a list of blocks, in which a block may stand twice. `Book` holds them with what always holds of its blocks.
ghost use Rattle.std.specs.Prelude.{◌≡◌, ◌≤◌, [], ◌∷◌, ◌++◌, length, Decides};
ghost use Rattle.model.specs.Blocks.{max_parents, max_load};
ghost use Rattle.book.specs.Memory.{lent_by, HasRoom};
ghost use Rattle.book.specs.Meeting.{shown};

use crate::block::Block;
use crate::entry::{Entry, MAX_BLOCKS};
use crate::lent::LentList;
use std::marker::Model;

// Small structs, whose parents and loads are stretches of two lists: so a book has no heap, and who lends the memory says how much of each there is.
#[derive(Drop)]
pub struct Tables<'a> {
    pub(crate) entries: LentList<'a, Entry>,
    pub(crate) parents: LentList<'a, u32>,
    pub(crate) loads: LentList<'a, u8>,
}

impl<'a> Model for Tables<'a> {
    ghost use Rattle.book.specs.Content.{blocks_of};
    ghost use Rattle.book.specs.Memory.{Kept, Tabled};

    ghost Value = { Kept };

    ghost view = { λ t. record {
      content = blocks_of t.entries.items t.parents.items t.loads.items;
      lent = record { blocks = t.entries.room; parents = t.parents.room; bytes = t.loads.room };
    } };

    ghost invariant = { λ t. Tabled t.entries.items t.parents.items t.loads.items };
}

impl<'a> Tables<'a> {
    pub(crate) fn new(
        entries: &'a mut [Entry],
        parents: &'a mut [u32],
        loads: &'a mut [u8],
    ) -> Tables<'a>
        ensures empty { result.content ≡ [] }
        ensures lent { result.lent ≡ lent_by entries.old parents.old loads.old }
    {
        Tables {
            entries: LentList::new(entries),
            parents: LentList::new(parents),
            loads: LentList::new(loads),
        }
    }

    // how many blocks there are
    pub(crate) fn len(&self) -> u32
        ensures { result ≡ length self.now.content }
    {
        self.entries.len() as u32
    }

    // whether one more block would find room, with so many parents and so many bytes
    pub(crate) fn has_room(&self, parents: usize, load: usize) -> bool
        ensures { Decides result (HasRoom self.now.lent self.now.content parents load) }
    {
        self.entries.len() < MAX_BLOCKS
            && self.entries.has_room(1)
            && self.parents.has_room(parents)
            && self.loads.has_room(load)
    }

    // Puts a block behind the others.
    pub(crate) fn push(&mut self, block: Block<'_>)
        requires few { length block.parents.now ≤ max_parents }
        requires short { length block.load.now ≤ max_load }
        requires room { HasRoom self.old.lent self.old.content (length block.parents.now) (length block.load.now) }
        ensures lent { self.new.lent ≡ self.old.lent }
        ensures grown { self.new.content ≡ self.old.content ++ (shown block.entry ∷ []) }
    {
        let entry = Entry {
            author: block.author,
            round: block.round,
            parents_from: self.parents.len() as u32,
            parents: block.parents.len() as u32,
            load_from: self.loads.len() as u32,
            load: block.load.len() as u32,
        };
        self.parents.extend_from_slice(block.parents);
        self.loads.extend_from_slice(block.load);
        self.entries.push(entry);
    }
}
