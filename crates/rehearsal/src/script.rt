// A script, line by line.
ghost use Rattle.std.specs.Prelude.{◌≡◌, ℕ, true, false, List, IfOk, Ok, Err, Option};
ghost use Rattle.book.specs.Books.{memory};
ghost use Rattle.rehearsal.specs.Scenes.{Scene};
ghost use Rattle.rehearsal.specs.Played.{Plays};
ghost use Rattle.rehearsal.specs.Ordering.{OrderIs};
ghost use Rattle.rehearsal.specs.Answering.{Tells, Responds, Opens, yes_no};

use crate::command::Command;
use crate::committee::Committee;
use book::Book;
use lines::buffer::TooLong;
use std::alloc::AllocError;

/// What is printed after a line.
#[derive(Drop)]
pub enum Reply {
    /// Nothing: what the line says was done.
    Nothing,
    /// `no`: the line says nothing, or nothing that may happen.
    No,
    /// This line.
    Line(Vec<u8>),
}

/// A committee that a script plays.
#[derive(Drop)]
pub struct Player<'a> {
    committee: Committee<'a>,
    opening: bool,
}

/// What is printed after something that was done, or wasn't. (One test, by name: a `From<bool>` would say less.)
fn answer(done: bool) -> Reply
    ensures { result ≡ yes_no done }
{
    if done { Reply::Nothing } else { Reply::No }
}

impl<'a> Player<'a> {
    /// Before the first line.
    pub fn new(committee: Committee<'a>) -> Player<'a>
        ensures committee { result.committee ≡ committee.entry }
        ensures opening { result.opening ≡ true }
    {
        Player {
            committee,
            opening: true,
        }
    }

    /// The book that all members read.
    pub fn book(&self) -> &Book<'a>
        ensures { result.now ≡ self.now.committee.book }
    {
        self.committee.book()
    }

    /// The book, which outlives the player.
    pub fn into_book(self) -> Book<'a>
        ensures { result ≡ self.entry.committee.book }
    {
        self.committee.into_book()
    }
}

impl Player<'_> {
    fn order(&self, member: u32) -> Result<Reply, AllocError>
        ensures { IfOk result (λ reply. (s : Scene) → Plays s self.now.committee → ((o : Option (List ℕ)) × OrderIs s member o × Tells s o reply)) }
    {
        let Some(names) = self.committee.order(member)? else {
            return Ok(Reply::No);
        };
        let line = self.committee.line_of(names.as_slice())?;
        Ok(Reply::Line(line))
    }

    /// Does what a line says, if it may be done.
    pub fn respond(&mut self, line: &[u8]) -> Result<Reply, AllocError>
        ensures responds { IfOk result (λ reply. (s : Scene) → Plays s self.old.committee →
            Responds (memory self.old.committee.book) s self.old.opening line.now reply self.new.committee) }
        ensures opening { Opens self.old.opening line.now self.new.opening }
        ensures lent { memory self.new.committee.book ≡ memory self.old.committee.book }
    {
        let Ok(command) = Command::try_from(line) else {
            if line.is_empty() {
                return Ok(Reply::Nothing);
            }
            self.opening = false;
            return Ok(Reply::No);
        };
        match command {
            Command::Bad(member) => {
                let done = self.opening && self.committee.bad(member).is_ok();
                Ok(answer(done))
            }
            Command::Block(block) => {
                self.opening = false;
                let name = self.committee.block(block)?;
                Ok(answer(name.is_some()))
            }
            Command::Step { act, member, word } => {
                self.opening = false;
                let done = self.committee.step(act, member, word);
                Ok(answer(done.is_ok()))
            }
            Command::Order(member) => {
                self.opening = false;
                self.order(member)
            }
        }
    }

    /// The same for a line as it was read: one that is too long to be held says nothing.
    pub fn hear(&mut self, line: Result<&[u8], TooLong>) -> Result<Reply, AllocError>
        ensures heard { IfOk result (λ reply. (s : Scene) → Plays s self.old.committee → elim line.entry [
          | Ok bytes ↦ Responds (memory self.old.committee.book) s self.old.opening bytes.now reply self.new.committee
          | Err _ ↦ (reply ≡ Reply.No) × Plays s self.new.committee
        ]) }
        ensures opening { elim line.entry [
          | Ok bytes ↦ Opens self.old.opening bytes.now self.new.opening
          | Err _ ↦ self.new.opening ≡ false
        ] }
        ensures lent { memory self.new.committee.book ≡ memory self.old.committee.book }
    {
        match line {
            Ok(bytes) => self.respond(bytes),
            Err(TooLong) => {
                self.opening = false;
                Ok(Reply::No)
            }
        }
    }
}
