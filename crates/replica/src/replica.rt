// The seat of one member. Its lists have their room in themselves, so no call can fail for want of memory.
ghost use Rattle.std.specs.Prelude.{◌≡◌};
ghost use Rattle.model.specs.Seat.{answer};
ghost use Rattle.replica.specs.Answers.{number_of};
ghost use Rattle.replica.specs.Held.{held};

use crate::checks::Candidate;
use crate::names::NameList;
use crate::seat::{Denied, ROOM, Seat};
use book::library::Library;
use members::Faults;
use order::read_order;

mod leave;

pub use leave::{LeaveToSign, Spent};

/// One member's seat: what it has taken in and signed, the latest first, and the round for which it makes its next block.
#[derive(Drop)]
pub struct Replica {
    number: u32,
    round: u32,
    web: NameList,
    signed: NameList,
}

/// No block is made for this round or a later one.
const ROUND_LIMIT: u32 = 1 << 20;

/// That a call may be done and there is room; that it may not is looked for before that there is no room.
fn allowed(may: bool, full: bool) -> Result<(), Denied>
    ensures { number_of result ≡ answer may full }
{
    if !may {
        return Err(Denied::MayNot);
    }
    if full {
        return Err(Denied::NoRoom);
    }
    Ok(())
}

impl Seat for Replica {
    ghost me = { held };

    ghost number = { λ s. s.number };

    fn fresh(i: u32) -> Replica {
        Replica {
            number: i,
            round: 0,
            web: NameList::empty(),
            signed: NameList::empty(),
        }
    }

    fn sign<B: Library>(
        &mut self,
        book: &B,
        faults: Faults,
        name: u32,
        genuine: bool,
    ) -> Result<LeaveToSign, Denied> {
        let may = Candidate { book, name }.may_sign(faults, genuine, self.signed.as_slice());
        allowed(may, self.signed.is_full())?;
        self.signed.insert(name);
        Ok(LeaveToSign::give(self.number, name))
    }

    fn take<B: Library>(&mut self, book: &B, name: u32, certified: bool) -> Result<(), Denied> {
        let may = Candidate { book, name }.may_take(certified, self.web.as_slice());
        allowed(may, self.web.is_full())?;
        self.web.push(name);
        Ok(())
    }

    fn make<B: Library>(&mut self, book: &B, faults: Faults, name: u32) -> Result<(), Denied> {
        let may = Candidate { book, name }.may_make(
            faults,
            self.number,
            self.round,
            self.web.as_slice(),
        );
        allowed(may, self.round >= ROUND_LIMIT)?;
        self.round += 1;
        Ok(())
    }

    fn order<B: Library>(&self, book: &B, faults: Faults, out: &mut [u32; ROOM]) -> u32 {
        read_order(book, faults, self.web.as_slice(), out)
    }
}
