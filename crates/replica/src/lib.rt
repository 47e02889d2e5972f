// One member's seat: what the member's program signs, takes in and makes, and the order that it reads, by what it holds and a book of blocks.
#![tactic(auto)]

ghost use Rattle.replica.specs.Kept.{WebsStayFit};

mod checks;
mod names;
mod replica;
mod seat;

pub use replica::{LeaveToSign, Replica, Spent};
pub use seat::{Denied, ROOM, Seat};

/// Reading the order asks that a web is whole, has nothing twice, and holds valid blocks without rivals. A web that was taken in from
/// certified blocks is so, through every run of calls, and also where the book grows meanwhile.
pub fn webs_stay_fit() -> u8
    ensures { WebsStayFit }
{
    0
}
