// Sets of members, as the bits of a number, and how many of a committee are needed.
#![tactic(auto)]

ghost use Rattle.std.specs.Prelude.{◌≡◌, ◌<◌, ◌≤◌, [], Some, Ok, Err, nat_le, codes};
ghost use Rattle.model.specs.Names.{is_in, different};
ghost use Rattle.model.specs.Thresholds.{quorum, needed_votes};
ghost use Rattle.members.specs.Sets.{Holds, Adds, EachList, ListsPinSets};

use std::error::Error;
use std::fmt;

mod faults;

pub use faults::{Faults, TooManyFaults};

/// A set of members, numbers below 64: bit i stands for member i.
// Fixed memory: the bits of one number. Clauses read the bits and the lists that they hold, and no list as the set's own value (an `impl Model`):
// callers come with lists in orders of their own, and would still have to say that theirs is the same set.
#[derive(Clone, Copy, PartialEq, Eq, Debug)]
pub struct MemberSet {
    bits: u64,
}

/// A number that no set of members can hold.
#[derive(Clone, Copy, PartialEq, Eq, Debug)]
pub struct NumberTooLarge;

impl fmt::Display for NumberTooLarge {
    ghost output = { λ _. Some (codes "a member of a set is a number below 64") };

    fn fmt<W: fmt::Write>(&self, f: &mut fmt::Formatter<W>) -> fmt::Result {
        f.write_str("a member of a set is a number below 64")
    }
}

impl Error for NumberTooLarge {}

impl MemberSet {
    /// Members of a set are below this.
    pub const LIMIT: u32 = 64;

    /// The set with no member.
    pub fn empty() -> MemberSet
        ensures bits { result.bits ≡ 0 }
        ensures holds { Holds result.bits [] }
    {
        MemberSet { bits: 0 }
    }

    /// Puts a member in; a number of 64 or more changes nothing.
    pub fn insert(&mut self, member: u32) -> Result<(), NumberTooLarge>
        ensures { elim result [
          | Ok u ↦ (member < 64) × Adds member self.old.bits self.new.bits
          | Err e ↦ (64 ≤ member) × (self.new ≡ self.old)
        ] }
    {
        if member >= MemberSet::LIMIT {
            return Err(NumberTooLarge);
        }
        self.bits |= 1 << member;
        Ok(())
    }

    /// Whether it is in the set.
    pub fn contains(&self, member: u32) -> bool
        ensures { EachList self.now.bits (λ xs. result ≡ is_in member xs) }
    {
        member < MemberSet::LIMIT && (self.bits >> member) & 1 == 1
    }

    /// How many different members it has.
    pub fn count(&self) -> u32
        ensures { EachList self.now.bits (λ xs. result ≡ different xs) }
    {
        self.bits.count_ones()
    }

    /// Whether it is a quorum.
    pub fn is_quorum(&self, faults: Faults) -> bool
        ensures { EachList self.now.bits (λ xs. result ≡ nat_le (quorum faults.f) (different xs)) }
    {
        self.count() >= faults.quorum()
    }

    /// Whether it has the votes that an anchor needs.
    pub fn has_votes(&self, faults: Faults) -> bool
        ensures { EachList self.now.bits (λ xs. result ≡ nat_le (needed_votes faults.f) (different xs)) }
    {
        self.count() >= faults.votes()
    }
}

/// A set and a list that it holds pin each other.
pub fn lists_pin_sets() -> u8
    ensures { ListsPinSets }
{
    0
}
