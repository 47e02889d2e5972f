// Why a book doesn't take a block in.
ghost use Rattle.std.specs.Prelude.{Some, codes};
ghost use Rattle.book.specs.declared.refusal.Refusal.TheVariants.{TooManyParents, LoadTooLong, NoSuchParent, NoRoom};

use std::error::Error;
use std::fmt;

/// The first of these that holds is the answer.
#[derive(Clone, Copy, PartialEq, Eq, Debug)]
pub enum Refusal {
    /// It has more than `MAX_PARENTS` parents.
    TooManyParents,
    /// It carries more than `MAX_LOAD` bytes.
    LoadTooLong,
    /// One of its parents isn't in the book.
    NoSuchParent,
    /// It isn't in the book, which has `MAX_BLOCKS` blocks or no lent memory left for it.
    NoRoom,
}

impl fmt::Display for Refusal {
    ghost output = { elim [
      | TooManyParents ↦ Some (codes "too many parents")
      | LoadTooLong ↦ Some (codes "the load is too long")
      | NoSuchParent ↦ Some (codes "no such parent")
      | NoRoom ↦ Some (codes "no room")
    ] };

    fn fmt<W: fmt::Write>(&self, f: &mut fmt::Formatter<W>) -> fmt::Result {
        f.write_str(match self {
            Refusal::TooManyParents => "too many parents",
            Refusal::LoadTooLong => "the load is too long",
            Refusal::NoSuchParent => "no such parent",
            Refusal::NoRoom => "no room",
        })
    }
}

impl Error for Refusal {}
