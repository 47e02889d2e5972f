//! The record of what a seat has signed: a ghost, of which no byte is stored.
//!
//! Rattle lets a ghost field hold data only in a struct that owns memory, so `Record` owns what is nothing, and what makes one, `made`, is
//! proved by hand: a proof may give such data any value. So the record binds nobody who knows that a seat is a `Rehearsal`; it binds
//! code that is generic over `Scheme`, which has no other way to change a seat's `said` than to sign; and a program has one seat.

ghost use Rattle.std.specs.Prelude.{◌≡◌, ℕ, List, [], ◌∷◌};
ghost use Rattle.std.specs.Borrow.{ftrue};

use std::marker::Model;

/// The messages signed so far, the newest first.
#[derive(Drop)]
pub struct Record {
    ghost said: { List (List ℕ) },
}

impl Model for Record {
    ghost also_owns = { λ _. ftrue };
}

impl Record {
    /// The record of any messages: the caller's proof picks which, in terms of what `of` shows.
    fn made<T>(of: &T) -> Record
        ghost said: { List (List ℕ) }
        ensures { result.said ≡ said }
    {
        let _ = of;
        Record {}
    }

    /// The record of a seat that has signed nothing.
    pub fn new() -> Record
        ensures { result.said ≡ [] }
    {
        Record::made(&())
    }

    /// The record with one message more.
    pub fn with(&self, message: &[u8]) -> Record
        ensures { result.said ≡ message.now ∷ self.now.said }
    {
        Record::made(&(self, message))
    }
}
