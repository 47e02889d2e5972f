// How many members of a committee may be bad, and the numbers that follow from it.
ghost use Rattle.std.specs.Prelude.{◌≡◌, ◌<◌, ◌≤◌, Some, Ok, Err, nat_lt, codes};
ghost use Rattle.model.specs.Thresholds.{members as members_of, quorum as quorum_of, needed_votes};

use std::error::Error;
use std::fmt;

/// A committee that holds with this many bad members, 0 to 4: it has three times as many members and one more.
#[derive(Clone, Copy, PartialEq, Eq, Debug)]
pub struct Faults {
    f: u32,
    ghost few: { f ≤ 4 },
}

/// More bad members than a committee is made for.
#[derive(Clone, Copy, PartialEq, Eq, Debug)]
pub struct TooManyFaults;

impl fmt::Display for TooManyFaults {
    ghost output = { λ _. Some (codes "more bad members than a committee is made for") };

    fn fmt<W: fmt::Write>(&self, f: &mut fmt::Formatter<W>) -> fmt::Result {
        f.write_str("more bad members than a committee is made for")
    }
}

impl Error for TooManyFaults {}

/// The committee for at most `f` bad members; above 4 there is none.
impl TryFrom<u32> for Faults {
    type Error = TooManyFaults;

    ghost try_from_gives = { λ f r. elim r [ Ok v ↦ v.f ≡ f | Err e ↦ 4 < f ] };

    fn try_from(f: u32) -> Result<Self, TooManyFaults> {
        if f > Faults::MOST {
            return Err(TooManyFaults);
        }
        Ok(Faults { f })
    }
}

impl Faults {
    pub const MOST: u32 = 4;

    /// At most so many members are bad.
    pub fn most_bad(self) -> u32
        ensures { result ≡ self.f }
    {
        self.f
    }

    /// How many members there are: they are numbered from 0.
    pub fn members(self) -> u32
        ensures { result ≡ members_of self.f }
    {
        3 * self.f + 1
    }

    /// So many different members are a quorum.
    pub fn quorum(self) -> u32
        ensures { result ≡ quorum_of self.f }
    {
        2 * self.f + 1
    }

    /// So many votes make a leader's block an anchor.
    pub fn votes(self) -> u32
        ensures { result ≡ needed_votes self.f }
    {
        self.most_bad() + 1
    }

    /// Whether there is a member of this number.
    pub fn has_member(self, member: u32) -> bool
        ensures { result ≡ nat_lt member (members_of self.f) }
    {
        member < self.members()
    }
}
