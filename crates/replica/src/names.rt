// A bounded list of names. It has its memory in itself, so a seat needs no allocator and its lists can't outgrow their room.
ghost use Rattle.std.specs.Prelude.{◌≡◌, ◌<◌, cond, [], ◌∷◌, length, nat_le};
ghost use Rattle.model.specs.Names.{is_in};
ghost use Rattle.model.specs.Seat.{seat_limit};

use crate::seat::ROOM;
use std::marker::Model;

/// A list of names, the latest first: contracts see the list alone. The array is filled from its end: the list is what stands from `from` on, so
/// that to put a name in front of it moves nothing.
// an array with an index beside it, and no `Vec`, since a seat's memory is fixed
#[derive(Drop)]
pub struct NameList {
    names: [u32; ROOM],
    from: usize,
}

impl Model for NameList {
    ghost use Rattle.std.specs.Prelude.{ℕ, ◌≤◌, List, drop};
    ghost use Rattle.model.specs.Seat.{seat_limit};

    ghost Value = { List ℕ };

    ghost view = { λ list. drop list.from list.names };

    ghost invariant = { λ list. list.from ≤ seat_limit };
}

impl NameList {
    /// The list with no name.
    pub fn empty() -> NameList
        ensures { result ≡ [] }
    {
        NameList {
            names: [0; ROOM],
            from: ROOM,
        }
    }

    /// The names, the latest first.
    pub fn as_slice(&self) -> &[u32]
        ensures { result.now ≡ self.now }
    {
        &self.names[self.from..]
    }

    /// Whether there is no room for another name.
    pub fn is_full(&self) -> bool
        ensures { result ≡ nat_le seat_limit (length self.now) }
    {
        self.from == 0
    }

    /// Puts a name in front.
    pub fn push(&mut self, name: u32)
        requires { length self.old < seat_limit }
        ensures { self.new ≡ name ∷ self.old }
    {
        self.from -= 1;
        self.names[self.from] = name;
    }

    /// Puts a name in front, unless it is there.
    #[tactic(auto, using(crate::proofs::Lists::is_in_has))]
    pub fn insert(&mut self, name: u32)
        requires { length self.old < seat_limit }
        ensures { self.new ≡ cond (is_in name self.old) self.old (name ∷ self.old) }
    {
        if !self.as_slice().contains(&name) {
            self.push(name);
        }
    }
}
