// The last anchor: the latest leader's block with the votes.
ghost use Rattle.std.specs.Prelude.{◌≡◌, ◌+◌, ◌*◌, ◌/◌, ◌^◌, ◌<◌, Some, None};
ghost use Rattle.model.specs.Names.{is_in};
ghost use Rattle.order_theory.specs.Tables.{votes_at, votes_in, voted_at, last_voted_at};

use super::Grid;
use crate::tables::at;
use book::library::{Library, parents_of};

impl<B: Library> Grid<'_, B> {
    // whether a block has that parent
    fn has_parent(&self, name: u32, parent: u32) -> bool
        ensures { result ≡ is_in parent (B.Library.what self.now.book.now name).parents }
    {
        parents_of(self.book, name).any(|other| parent == other)
    }

    // whether the block at a place, if one is there, has that parent
    fn votes_at(&self, name: u32, place: usize) -> bool
        ensures { result ≡ votes_at (B.Library.what self.now.book.now) name self.now.names self.now.marks place }
    {
        at(&self.marks, place) > 0 && self.has_parent(at(&self.names, place), name)
    }

    // how many of a round do
    pub(super) fn votes_in(&self, name: u32, round: u32) -> usize
        ensures { result
            ≡ votes_in (B.Library.what self.now.book.now) name self.now.names self.now.marks (round * self.now.width.places) self.now.width.places }
    {
        let row = self.width.row(round);
        (row..row + self.width.places())
            .filter(|place| self.votes_at(name, *place))
            .count()
    }

    // whether the leader's block of round `2 * k` is there and has more than `f` votes; here and below a round is told by half of it, as the theory's
    // definitions count even rounds
    fn voted_at(&self, k: u32) -> bool
        requires { k < 2 ^ 31 }
        ensures { result
            ≡ voted_at self.now.faults.f self.now.width.places (B.Library.what self.now.book.now) self.now.names self.now.marks k }
    {
        let leader = self.width.leader(2 * k);
        let name = at(&self.names, leader);
        at(&self.marks, leader) > 0
            && self.votes_in(name, 2 * k + 1) > self.faults.most_bad() as usize
    }

    /// The latest even round, of the rounds up to `last`, whose leader has the votes: half of it.
    pub fn last_voted(&self, last: u32) -> Option<u32>
        ensures last { result
            ≡ last_voted_at self.now.faults.f self.now.width.places (B.Library.what self.now.book.now) self.now.names self.now.marks (last / 2 + 1) }
        ensures below { elim result [ None ↦ Unit {0} | Some k ↦ k < 2 ^ 31 ] }
    {
        // by a loop over rounds downwards, and not `find`: a rule of the project for all that goes back through rounds
        for k in (0..last / 2 + 1).rev() {
            if self.voted_at(k) {
                return Some(k);
            }
        }
        None
    }
}
