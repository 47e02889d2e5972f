// The trait of seats: the calls of one member's program, each by what the member holds before and after.
ghost use Rattle.std.specs.Prelude.{◌≡◌, ℕ, Some, length};
ghost use Rattle.model.specs.Order.{order};
ghost use Rattle.model.specs.Reading.{Readable};
ghost use Rattle.model.specs.Member.{Member, new_member, signable, takable, makable, after_sign, after_take, after_make};
ghost use Rattle.model.specs.Seat.{answer, after, full_signed, full_web, full_round, padded, seat_limit};
ghost use Rattle.replica.specs.Answers.{number_of, told, LeaveFor};

use crate::replica::LeaveToSign;
use book::library::Library;
use members::Faults;
use std::error::Error;
use std::fmt;

/// A seat has room for so many names in its web, and as many that it signed.
pub const ROOM: usize = 4096;

/// Why a seat doesn't do what it is asked: it may not be done, or there is no room. That it may not is looked for before that there is no
/// room, and what isn't done changes nothing.
#[derive(Clone, Copy, Debug, PartialEq, Eq)]
pub enum Denied {
    MayNot,
    NoRoom,
}

impl fmt::Display for Denied {
    ghost output = { λ denied. Some (told denied) };

    fn fmt<W: fmt::Write>(&self, f: &mut fmt::Formatter<W>) -> fmt::Result {
        match self {
            Denied::MayNot => write!(f, "it may not be done"),
            Denied::NoRoom => write!(f, "there is no room"),
        }
    }
}

impl Error for Denied {}

/// A seat; `me` is what the member holds, `number` which member it is. How many members may be bad comes with the calls. Clauses give an answer by its
/// number, as the rules and the model's definitions do.
// The book and the name come apart, as the definitions have them, and in the trait no type says more of both.
pub trait Seat {
    ghost me: { Self → Member };

    ghost number: { Self → ℕ };

    /// The seat of member i, which has signed and taken in nothing.
    fn fresh(i: u32) -> Self
        ensures holds { me result ≡ new_member }
        ensures number { number result ≡ i };

    /// To sign a block; `genuine` says whether its author really made it. Leave is given for this block and this member only, and to sign again
    /// what is signed changes nothing.
    fn sign<B: Library>(
        &mut self,
        book: &B,
        faults: Faults,
        name: u32,
        genuine: bool,
    ) -> Result<LeaveToSign, Denied>
        ensures answers { number_of result ≡ answer (signable faults.f (B.Library.what book.now) genuine name (me self.old))
            (full_signed (me self.old)) }
        ensures leaves { LeaveFor (number self.old) name result }
        ensures holds { me self.new ≡ after (number_of result) (after_sign name (me self.old)) (me self.old) }
        ensures number { number self.new ≡ number self.old };

    /// To take in a block; `certified` says whether a quorum of members signed it.
    fn take<B: Library>(&mut self, book: &B, name: u32, certified: bool) -> Result<(), Denied>
        ensures answers { number_of result ≡ answer (takable (B.Library.what book.now) certified name (me self.old))
            (full_web (me self.old)) }
        ensures holds { me self.new ≡ after (number_of result) (after_take name (me self.old)) (me self.old) }
        ensures number { number self.new ≡ number self.old };

    /// To make a block, of the member's next round.
    fn make<B: Library>(&mut self, book: &B, faults: Faults, name: u32) -> Result<(), Denied>
        ensures answers { number_of result ≡ answer (makable faults.f (B.Library.what book.now) (number self.old) name (me self.old))
            (full_round (me self.old)) }
        ensures holds { me self.new ≡ after (number_of result) (after_make (me self.old)) (me self.old) }
        ensures number { number self.new ≡ number self.old };

    /// The order that the member reads off its web: how long it is, and in `out` its names with noughts behind them. The book has to be the
    /// one by which the web was taken in, or what that has grown to.
    // the caller lends the place for the names, since a seat's memory is fixed
    fn order<B: Library>(&self, book: &B, faults: Faults, out: &mut [u32; ROOM]) -> u32
        requires { Readable faults.f (B.Library.what book.now) (me self.now).web }
        ensures count { result ≡ length (order faults.f (B.Library.what book.now) (me self.now).web) }
        ensures listed { out.new ≡ padded seat_limit (order faults.f (B.Library.what book.now) (me self.now).web) };
}
