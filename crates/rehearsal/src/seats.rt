// The seats of a committee.
ghost use Rattle.std.specs.Prelude.{◌≡◌, ◌<◌, List, length, IfOk, slice_index_or};
ghost use Rattle.model.specs.Member.{Member, new_member, signable, takable, makable, after_sign, after_take, after_make};
ghost use Rattle.model.specs.Order.{order};
ghost use Rattle.model.specs.Reading.{Readable};
ghost use Rattle.model.specs.Seat.{full_signed, full_web, full_round, padded};
ghost use Rattle.model.specs.World.{new_members};
ghost use Rattle.replica.specs.Answers.{number_of, LeaveFor};
ghost use Rattle.replica.specs.Held.{held as member_of};
ghost use Rattle.replica.specs.declared.replica.Replica.{Replica};
ghost use Rattle.rehearsal.specs.Seated.{Sit, Steps};

use book::library::Library;
use members::Faults;
use replica::{Denied, LeaveToSign, ROOM, Replica, Seat};
use std::alloc::{AllocError, Global};

/// The members' seats, each at its number's place.
// Member, book, committee and name come apart in its calls, as in those of the trait of seats.
#[derive(Drop)]
pub struct Seats {
    seats: Vec<Replica>,
}

impl Seats {
    /// So many members that begin with nothing.
    pub fn new(heap: Global, count: u32) -> Result<Seats, AllocError>
        ensures { IfOk result (λ s. Sit (new_members count) s.seats.items) }
    {
        let mut seats = Vec::new(heap);
        // by the members' numbers; a chain that collects them would say no less than the loop
        for i in 0..count {
            seats.push(<Replica as Seat>::fresh(i))?;
        }
        Ok(Seats { seats })
    }

    /// A member makes a block, if it may and has room.
    pub fn make<B: Library>(
        &mut self,
        member: u32,
        book: &B,
        faults: Faults,
        name: u32,
    ) -> Result<(), Denied>
        ensures { Steps self.old.seats.items member (makable faults.f (B.Library.what book.now) member name) full_round after_make
            (number_of result) self.new.seats.items }
    {
        let seat = self.seats.get_mut(member as usize).ok_or(Denied::MayNot)?;
        seat.make(book, faults, name)
    }

    /// A member signs a block, if it may and has room: leave to do so, for this member and this block.
    pub fn sign<B: Library>(
        &mut self,
        member: u32,
        book: &B,
        faults: Faults,
        name: u32,
        genuine: bool,
    ) -> Result<LeaveToSign, Denied>
        ensures steps { Steps self.old.seats.items member (signable faults.f (B.Library.what book.now) genuine name) full_signed (after_sign name)
            (number_of result) self.new.seats.items }
        ensures leaves { (ms : List Member) → Sit ms self.old.seats.items → LeaveFor member name result }
    {
        let seat = self.seats.get_mut(member as usize).ok_or(Denied::MayNot)?;
        seat.sign(book, faults, name, genuine)
    }

    /// A member takes a block in, if it may and has room.
    pub fn take<B: Library>(
        &mut self,
        member: u32,
        book: &B,
        name: u32,
        certified: bool,
    ) -> Result<(), Denied>
        ensures { Steps self.old.seats.items member (takable (B.Library.what book.now) certified name) full_web (after_take name)
            (number_of result) self.new.seats.items }
    {
        let seat = self.seats.get_mut(member as usize).ok_or(Denied::MayNot)?;
        seat.take(book, name, certified)
    }

    /// The order that a member reads off its web: how long it is, and its names at the front of `out`, which is lent to the seat, as it has no heap.
    pub fn order<B: Library>(
        &self,
        member: u32,
        book: &B,
        faults: Faults,
        out: &mut [u32; ROOM],
    ) -> u32
        requires there { member < length self.now.seats.items }
        requires readable { (d : Replica) → Readable faults.f (B.Library.what book.now) (member_of (slice_index_or self.now.seats.items member d)).web }
        ensures count { (ms : List Member) → Sit ms self.now.seats.items →
            result ≡ length (order faults.f (B.Library.what book.now) (slice_index_or ms member new_member).web) }
        ensures listed { (ms : List Member) → Sit ms self.now.seats.items →
            out.new ≡ padded 4096 (order faults.f (B.Library.what book.now) (slice_index_or ms member new_member).web) }
    {
        self.seats[member as usize].order(book, faults, out)
    }
}
