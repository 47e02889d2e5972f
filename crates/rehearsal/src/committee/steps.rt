// The steps of members: each step of a good member is a call of its seat.
ghost use Rattle.std.specs.Prelude.{◌≡◌, ◌<◌, length, is_ok};
ghost use Rattle.book.specs.Books.{blocks, memory};
ghost use Rattle.model.specs.World.{good, genuine, certified};
ghost use Rattle.rehearsal.specs.declared.act.Act.TheVariants.{Makes, Signs, Takes, Forges};
ghost use Rattle.rehearsal.specs.Scenes.{Scene, is_bad, book_in, world_in};
ghost use Rattle.rehearsal.specs.Played.{Plays, Acted, Stepped};
ghost use Rattle.rehearsal.specs.Words.{name_in};

use super::Committee;
use crate::act::Act;
use crate::not_done::NotDone;
use book::library::Library;

impl Committee<'_> {
    /// Whether there is a good member of this number.
    fn is_good(&self, member: u32) -> bool
        ensures { (s : Scene) → Plays s self.now → result ≡ good s.faults (is_bad s) member }
    {
        self.faults.has_member(member) && !self.bad.contains(member)
    }

    /// Whether a block was really made by its author: all blocks of a bad one count as made.
    fn is_genuine(&self, name: u32) -> bool
        ensures { (s : Scene) → Plays s self.now → result ≡ genuine (book_in s) (is_bad s) name (world_in s) }
    {
        self.bad.contains(self.book.view().author(name)) || self.notes.is_made(name)
    }

    /// Whether a quorum of members has signed a block.
    fn is_certified(&self, name: u32) -> bool
        ensures { (s : Scene) → Plays s self.now → result ≡ certified s.faults name (world_in s) }
    {
        self.notes.signers(name).is_quorum(self.faults)
    }

    // Making, signing and taking differ in what is asked of the seat and in what is noted then: one function for the three would be told both. That
    // the block is in the book is said at each of the four, since it is a fact of this book now, which no type of names could hold.
    fn makes(&mut self, member: u32, name: u32) -> Result<(), NotDone>
        requires { name < length (blocks self.old.book) }
        ensures acted { (s : Scene) → Plays s self.old → Acted s Makes member name (is_ok result) self.new }
        ensures lent { memory self.new.book ≡ memory self.old.book }
    {
        if !self.is_good(member) {
            return Err(NotDone);
        }
        let book = self.book.view();
        self.seats.make(member, &book, self.faults, name)?;
        self.notes.make(name);
        Ok(())
    }

    fn signs(&mut self, member: u32, name: u32) -> Result<(), NotDone>
        requires { name < length (blocks self.old.book) }
        ensures acted { (s : Scene) → Plays s self.old → Acted s Signs member name (is_ok result) self.new }
        ensures lent { memory self.new.book ≡ memory self.old.book }
    {
        if !self.is_good(member) {
            return Err(NotDone);
        }
        let genuine = self.is_genuine(name);
        let book = self.book.view();
        let leave = self.seats.sign(member, &book, self.faults, name, genuine)?;
        self.notes.sign(leave);
        Ok(())
    }

    fn takes(&mut self, member: u32, name: u32) -> Result<(), NotDone>
        requires { name < length (blocks self.old.book) }
        ensures acted { (s : Scene) → Plays s self.old → Acted s Takes member name (is_ok result) self.new }
        ensures lent { memory self.new.book ≡ memory self.old.book }
    {
        if !self.is_good(member) {
            return Err(NotDone);
        }
        let certified = self.is_certified(name);
        let book = self.book.view();
        self.seats.take(member, &book, name, certified)?;
        Ok(())
    }

    fn forges(&mut self, member: u32, name: u32) -> Result<(), NotDone>
        requires { name < length (blocks self.old.book) }
        ensures acted { (s : Scene) → Plays s self.old → Acted s Forges member name (is_ok result) self.new }
        ensures lent { memory self.new.book ≡ memory self.old.book }
    {
        if !self.faults.has_member(member) || !self.bad.contains(member) {
            return Err(NotDone);
        }
        self.notes.add(member, name);
        Ok(())
    }

    /// A step of a member with the block that a word stands for, if it may be done.
    pub fn step(&mut self, act: Act, member: u32, word: &[u8]) -> Result<(), NotDone>
        ensures stepped { (s : Scene) → Plays s self.old → Stepped s act member (name_in word.now s.words) (is_ok result) self.new }
        ensures lent { memory self.new.book ≡ memory self.old.book }
    {
        let name = self.words.name_of(word).ok_or(NotDone)?;
        match act {
            Act::Makes => self.makes(member, name),
            Act::Signs => self.signs(member, name),
            Act::Takes => self.takes(member, name),
            Act::Forges => self.forges(member, name),
        }
    }
}
