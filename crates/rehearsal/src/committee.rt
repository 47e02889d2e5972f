// The committee: the book that all members read, a seat for each member, who signed what, and the script's words for blocks.
ghost use Rattle.rehearsal.specs.Held.{Played};

use crate::glossary::Glossary;
use crate::notes::Notes;
use crate::seats::Seats;
use book::Book;
use members::{Faults, MemberSet};
use std::alloc::Global;

mod blocks;
mod opening;
mod orders;
mod steps;

/// All members of a committee and their book, with what has happened so far: all that came by the calls of a script's lines.
// It has no `impl Model`: one committee plays many scenes, since what it holds doesn't tell in which order things happened.
// That a call leaves the book the memory that was lent to it is a clause of each call, and no part of what the call answers: it holds where memory
// runs out too, when nothing is answered, and it ties two moments, which an invariant can't.
#[derive(Drop)]
pub struct Committee<'a> {
    heap: Global,
    faults: Faults,
    book: Book<'a>,
    bad: MemberSet,
    seats: Seats,
    notes: Notes,
    words: Glossary,
    ghost played: { ∥ Played (record { faults = faults; book = book; bad = bad; seats = seats; notes = notes; words = words }) ∥₁ },
}
