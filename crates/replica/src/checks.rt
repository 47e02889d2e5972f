// What a seat asks of a block before it signs it, takes it in or makes it: each test is one of the definitions.
ghost use Rattle.std.specs.Prelude.{◌≡◌, ◌+◌, ◌-◌, ◌<◌, not, ◌&&◌, ◌||◌, drop, length, slice_index, ◌==◌, nat_le, nat_lt};
ghost use Rattle.model.specs.Names.{is_in, all_in, distinct, different};
ghost use Rattle.model.specs.Thresholds.{members as members_of, quorum};
ghost use Rattle.model.specs.Blocks.{authors_at, all_earlier, valid};
ghost use Rattle.model.specs.Member.{rival};
ghost use Rattle.members.specs.Sets.{Holds};
ghost use Rattle.replica.specs.Candidates.{book_of, block_of};

use book::library::{Library, Parents, parents_of};
use members::{Faults, MemberSet};

/// A block that a seat is asked about: its name, and the book that tells which block that is.
// The committee comes with the calls, since taking a block in asks nothing of it.
#[derive(Drop)]
pub struct Candidate<'a, B> {
    pub book: &'a B,
    pub name: u32,
}

impl<'a, B: Library> Candidate<'a, B> {
    fn author(&self) -> u32
        ensures { result ≡ (block_of B.what self.now).author }
    {
        self.book.author(self.name)
    }

    fn round(&self) -> u32
        ensures { result ≡ (block_of B.what self.now).round }
    {
        self.book.round(self.name)
    }

    /// The names of its parents.
    fn parents(&self) -> Parents<'a, B>
        ensures { result ≡ (block_of B.what self.now).parents }
    {
        parents_of(self.book, self.name)
    }

    /// How many parents it has.
    fn parent_count(&self) -> u32
        ensures { result ≡ length (block_of B.what self.now).parents }
    {
        self.book.parents(self.name)
    }

    /// The name of its parent at a place, from 0.
    fn parent(&self, at: u32) -> u32
        ensures { result ≡ slice_index (block_of B.what self.now).parents at }
    {
        self.book.parent(self.name, at)
    }

    /// Whether it and this other one are two blocks of one author and round.
    fn is_rival_of(&self, other: u32) -> bool
        ensures { result ≡ (not (self.now.name == other) && ((block_of B.what self.now).author == (book_of B.what self.now other).author)
            && (block_of B.what self.now).round == (book_of B.what self.now other).round) }
    {
        self.name != other
            && self.author() == self.book.author(other)
            && self.round() == self.book.round(other)
    }

    /// Whether a rival of it is among these.
    fn has_rival(&self, names: &[u32]) -> bool
        ensures { result ≡ rival (book_of B.what self.now) self.now.name names.now }
    {
        names.iter().any(|other| self.is_rival_of(*other))
    }

    /// Whether all its parents are among these.
    fn parents_among(&self, names: &[u32]) -> bool
        ensures { result ≡ all_in (block_of B.what self.now).parents names.now }
    {
        self.parents().all(|parent| names.contains(&parent))
    }

    /// Whether all its parents are of earlier rounds.
    fn parents_earlier(&self) -> bool
        ensures { result ≡ all_earlier (book_of B.what self.now) (block_of B.what self.now).round (block_of B.what self.now).parents }
    {
        let round = self.round();
        self.parents().all(|parent| self.book.round(parent) < round)
    }

    /// Whether its parent at a place stands behind that place again.
    fn is_repeated(&self, at: u32) -> bool
        requires { at < length (block_of B.what self.now).parents }
        ensures { result ≡ is_in (slice_index (block_of B.what self.now).parents at) (drop (at + 1) (block_of B.what self.now).parents) }
    {
        let count = self.parent_count();
        let parent = self.parent(at);
        (at + 1..count).any(|later| self.parent(later) == parent)
    }

    /// Whether no parent stands there twice.
    fn parents_differ(&self) -> bool
        ensures { result ≡ distinct (block_of B.what self.now).parents }
    {
        (0..self.parent_count()).all(|at| !self.is_repeated(at))
    }

    /// Whether this block of its book is of this round, and a member's.
    fn is_members_at(&self, faults: Faults, round: u32, other: u32) -> bool
        ensures { result ≡ ((book_of B.what self.now other).round == round && nat_lt (book_of B.what self.now other).author (members_of faults.f)) }
    {
        self.book.round(other) == round && faults.has_member(self.book.author(other))
    }

    /// The members that made those of its parents that are of this round.
    fn authors_at(&self, faults: Faults, round: u32) -> MemberSet
        ensures { Holds result.bits (authors_at faults.f (book_of B.what self.now) round (block_of B.what self.now).parents) }
    {
        let mut authors = MemberSet::empty();
        for parent in self.parents() {
            if self.is_members_at(faults, round, parent) {
                // a member's number is small enough for a set of members
                authors.insert(self.book.author(parent)).unwrap();
            }
        }
        authors
    }

    /// Whether a quorum of different members made its parents of the round before; in round 0 there is no round before.
    fn builds_on_quorum(&self, faults: Faults) -> bool
        ensures { result ≡ ((block_of B.what self.now).round == 0 || nat_le (quorum faults.f) (different
            (authors_at faults.f (book_of B.what self.now) ((block_of B.what self.now).round - 1) (block_of B.what self.now).parents))) }
    {
        let round = self.round();
        round == 0 || self.authors_at(faults, round - 1).is_quorum(faults)
    }

    /// Whether it is valid: its author is a member, its parents are different and of earlier rounds, and it builds on a quorum.
    #[tactic(auto, unfolding(model::specs::Blocks::valid))]
    fn is_valid(&self, faults: Faults) -> bool
        ensures { result ≡ valid faults.f (book_of B.what self.now) (block_of B.what self.now) }
    {
        faults.has_member(self.author())
            && self.parents_differ()
            && self.parents_earlier()
            && self.builds_on_quorum(faults)
    }

    /// Whether a member that has signed these may sign it.
    pub fn may_sign(&self, faults: Faults, genuine: bool, signed: &[u32]) -> bool
        ensures { result ≡ (valid faults.f (book_of B.what self.now) (block_of B.what self.now) && genuine
            && not (rival (book_of B.what self.now) self.now.name signed.now)) }
    {
        self.is_valid(faults) && genuine && !self.has_rival(signed)
    }

    /// Whether a member that has taken these in may take it in.
    #[tactic(auto, using(crate::proofs::Lists::is_in_has))]
    pub fn may_take(&self, certified: bool, taken: &[u32]) -> bool
        ensures { result ≡ (certified && all_in (block_of B.what self.now).parents taken.now && not (is_in self.now.name taken.now)
            && not (rival (book_of B.what self.now) self.now.name taken.now)) }
    {
        certified
            && self.parents_among(taken)
            && !taken.contains(&self.name)
            && !self.has_rival(taken)
    }

    /// Whether the member of this number, with this next round and this web, may make it.
    pub fn may_make(&self, faults: Faults, number: u32, round: u32, web: &[u32]) -> bool
        ensures { result ≡ (valid faults.f (book_of B.what self.now) (block_of B.what self.now) && ((block_of B.what self.now).author == number)
            && (block_of B.what self.now).round == round && all_in (block_of B.what self.now).parents web.now) }
    {
        self.author() == number
            && self.round() == round
            && self.is_valid(faults)
            && self.parents_among(web)
    }
}
