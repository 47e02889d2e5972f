// How a committee begins: nobody has done anything, and some members are said to be bad.
ghost use Rattle.std.specs.Prelude.{◌≡◌, IfOk, is_ok};
ghost use Rattle.book.specs.Books.{blocks, memory};
ghost use Rattle.rehearsal.specs.Scenes.{Scene, opening, with_blocks};
ghost use Rattle.rehearsal.specs.Played.{Plays, SaidBad};

use super::Committee;
use crate::glossary::Glossary;
use crate::not_done::NotDone;
use crate::notes::Notes;
use crate::seats::Seats;
use book::Book;
use members::{Faults, MemberSet};
use std::alloc::{AllocError, Global};

impl<'a> Committee<'a> {
    /// A committee of members that begin with nothing, and with a book whose blocks have no words yet.
    pub fn new(heap: Global, faults: Faults, book: Book<'a>) -> Result<Committee<'a>, AllocError>
        ensures plays { IfOk result (λ c. Plays (with_blocks (blocks book.entry) (opening faults.f)) c) }
        ensures lent { IfOk result (λ c. memory c.book ≡ memory book.entry) }
    {
        Ok(Committee {
            heap,
            faults,
            bad: MemberSet::empty(),
            seats: Seats::new(heap, faults.members())?,
            notes: Notes::new(heap, book.len())?,
            words: Glossary::new(heap),
            book,
        })
    }

    /// The book that all members read.
    pub fn book(&self) -> &Book<'a>
        ensures { result.now ≡ self.now.book }
    {
        &self.book
    }

    /// The book, which outlives the committee.
    pub fn into_book(self) -> Book<'a>
        ensures { result ≡ self.entry.book }
    {
        self.book
    }
}

impl Committee<'_> {
    /// A member is bad from the start, if it may be: not after a block was named, and no more of them than may be.
    pub fn bad(&mut self, member: u32) -> Result<(), NotDone>
        ensures plays { (s : Scene) → Plays s self.old → SaidBad s member (is_ok result) self.new }
        ensures lent { memory self.new.book ≡ memory self.old.book }
    {
        if !self.notes.is_empty() || !self.faults.has_member(member) {
            return Err(NotDone);
        }
        if !self.bad.contains(member) && self.bad.count() >= self.faults.most_bad() {
            return Err(NotDone);
        }
        // a member's number is small enough for a set of members
        self.bad.insert(member).unwrap();
        Ok(())
    }
}
