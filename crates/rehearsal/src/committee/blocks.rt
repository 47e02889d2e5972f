// Blocks and the words for them.
ghost use Rattle.std.specs.Prelude.{◌≡◌, ℕ, ◌<◌, List, IfOk, OnOk, Some, None, vec_len, vec_capacity};
ghost use Rattle.book.specs.Books.{blocks, memory};
ghost use Rattle.book.specs.Meeting.{shown, Addable};
ghost use Rattle.lines.specs.Left.{left};
ghost use Rattle.rehearsal.specs.Answering.{LoadIs, Introduced};
ghost use Rattle.rehearsal.specs.Commands.{described};
ghost use Rattle.rehearsal.specs.Scenes.{Scene};
ghost use Rattle.rehearsal.specs.Played.{Plays, Meets, Named};

use super::Committee;
use crate::command::BlockLine;
use crate::notes::Notes;
use book::{Block, Book};
use lines::hex;
use lines::words::Words;
use std::alloc::{AllocError, Global};

/// The authors of a script's blocks are below this.
const AUTHORS: u32 = 256;

/// The rounds of a script's blocks are below this: a seat makes none of a later one.
const ROUNDS: u32 = 1 << 20;

/// The bytes of a block's load, as a line has it: `-` for none.
fn load_of(heap: Global, word: &[u8]) -> Result<Option<Vec<u8>>, AllocError>
    ensures { IfOk result (λ o. elim o [
      | Some v ↦ LoadIs word.now v.items
      | None ↦ ((bytes : List ℕ) → LoadIs word.now bytes → ⊥)
    ]) }
{
    if word == b"-".as_slice() {
        return Ok(Some(Vec::new(heap)));
    }
    hex::bytes_of(heap, word)
}

// Room for a block's note, if the book will add the block: none is asked for where the book has it or refuses it.
fn make_room(notes: &mut Notes, book: &Book<'_>, block: Block<'_>) -> Result<(), AllocError>
    ensures same { notes.new.notes.items ≡ notes.old.notes.items }
    ensures room { OnOk result (Addable (memory book.now) (blocks book.now) (shown block.entry) →
        vec_len notes.new.notes < vec_capacity notes.new.notes) }
{
    if notes.has_room() || !book.would_add(block) {
        return Ok(());
    }
    notes.make_room()
}

impl Committee<'_> {
    // The name of a block, unless it can't be in the book.
    fn meet(&mut self, block: Block<'_>) -> Result<Option<u32>, AllocError>
        ensures plays { IfOk result (λ o. (s : Scene) → Plays s self.old →
            Meets (memory self.old.book) s (shown block.entry) o self.new) }
        ensures lent { memory self.new.book ≡ memory self.old.book }
    {
        // room for the note comes first: where memory runs out, the book must not have grown
        make_room(&mut self.notes, &self.book, block)?;
        let next = self.book.len();
        let Ok(name) = self.book.meet(block) else {
            return Ok(None);
        };
        if name == next {
            self.notes.push();
        }
        Ok(Some(name))
    }

    /// A word for a block: the block's name, if it could be given. It could if the word isn't in use, the author and the round aren't too large, each
    /// parent's word stands for a block, and the book takes the block.
    // A `Result` of an `Option`, and no one error for both: that a block can't be named is an answer, after which the script goes on, while want of
    // memory ends the program, so that the caller would have to take the two apart again.
    pub fn name_block(
        &mut self,
        word: &[u8],
        author: u32,
        round: u32,
        load: &[u8],
        parents: Words<'_>,
    ) -> Result<Option<u32>, AllocError>
        ensures plays { IfOk result (λ o. (s : Scene) → Plays s self.old →
            Named (memory self.old.book) s word.now author round load.now (left parents.entry) o self.new) }
        ensures lent { memory self.new.book ≡ memory self.old.book }
    {
        if author >= AUTHORS || round >= ROUNDS || self.words.name_of(word).is_some() {
            return Ok(None);
        }
        let Some(names) = self.words.names_of(parents)? else {
            return Ok(None);
        };
        let block = Block {
            author,
            round,
            parents: names.as_slice(),
            load,
        };
        let Some(name) = self.meet(block)? else {
            return Ok(None);
        };
        self.words.add(word, name)?;
        Ok(Some(name))
    }

    /// The same for a block as a line describes it, whose load is still to be read: it must be bytes.
    pub fn block(&mut self, line: BlockLine<'_>) -> Result<Option<u32>, AllocError>
        ensures plays { IfOk result (λ o. (s : Scene) → Plays s self.old →
            Introduced (memory self.old.book) s (described line.entry) o self.new) }
        ensures lent { memory self.new.book ≡ memory self.old.book }
    {
        let Some(load) = load_of(self.heap, line.load)? else {
            return Ok(None);
        };
        self.name_block(
            line.word,
            line.author,
            line.round,
            load.as_slice(),
            line.parents,
        )
    }
}
