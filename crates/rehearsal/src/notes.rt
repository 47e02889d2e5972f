// What happened to the blocks: who signed each, and whether its author really made it.
ghost use Rattle.std.specs.Prelude.{◌≡◌, ℕ, ◌+◌, ◌<◌, List, ◌∷◌, length, OnOk, IfOk, ◌==◌, slice_index_or, replicate, vec_len, vec_capacity, Decides};
ghost use Rattle.model.specs.World.{Signature};
ghost use Rattle.rehearsal.specs.Noted.{no_note, Noted};

use members::MemberSet;
use replica::{LeaveToSign, Spent};
use std::alloc::{AllocError, Global};

/// What happened to one block.
#[derive(Clone, Copy)]
pub struct Note {
    signers: MemberSet,
    made: bool,
}

impl Note {
    // nothing happened
    fn new() -> Note
        ensures { result ≡ no_note }
    {
        Note {
            signers: MemberSet::empty(),
            made: false,
        }
    }
}

/// A note for each block, at its name's place.
// It has no `impl Model` but its list: signatures and blocks made in many orders leave the same notes, so contracts go over all that fit, by `Noted`.
// That a block has a note is asked at each call, since it is a fact of these notes and a name, which no type of names could hold.
#[derive(Drop)]
pub struct Notes {
    notes: Vec<Note>,
}

impl Notes {
    /// So many blocks, to which nothing has happened yet.
    pub fn new(heap: Global, count: u32) -> Result<Notes, AllocError>
        ensures { IfOk result (λ n. n.notes.items ≡ replicate count no_note) }
    {
        let notes = vec![in heap; Note::new(); count as usize]?;
        Ok(Notes { notes })
    }

    /// Whether there is no block yet.
    pub fn is_empty(&self) -> bool
        ensures { result ≡ (length self.now.notes.items == 0) }
    {
        self.notes.is_empty()
    }

    /// Whether there is room for one more block.
    pub fn has_room(&self) -> bool
        ensures { Decides result (vec_len self.now.notes < vec_capacity self.now.notes) }
    {
        self.notes.len() < self.notes.capacity()
    }

    /// Room for one more block.
    pub fn make_room(&mut self) -> Result<(), AllocError>
        ensures same { self.new.notes.items ≡ self.old.notes.items }
        ensures room { OnOk result (vec_len self.new.notes < vec_capacity self.new.notes) }
    {
        self.notes.reserve(1)
    }

    /// One more block, to which nothing has happened yet.
    pub fn push(&mut self)
        requires { vec_len self.old.notes < vec_capacity self.old.notes }
        ensures long { length self.new.notes.items ≡ length self.old.notes.items + 1 }
        ensures noted { (x : ℕ) → slice_index_or self.new.notes.items x no_note ≡ slice_index_or self.old.notes.items x no_note }
    {
        self.notes.push(Note::new()).unwrap();
    }

    // what happened to a block: nothing if there is none of that name
    fn note(&self, name: u32) -> Note
        ensures { result ≡ slice_index_or self.now.notes.items name no_note }
    {
        self.notes
            .get(name as usize)
            .copied()
            .unwrap_or(Note::new())
    }

    /// Who signed a block.
    pub fn signers(&self, name: u32) -> MemberSet
        ensures { result ≡ (slice_index_or self.now.notes.items name no_note).signers }
    {
        self.note(name).signers
    }

    /// Whether a good member made a block.
    pub fn is_made(&self, name: u32) -> bool
        ensures { result ≡ (slice_index_or self.now.notes.items name no_note).made }
    {
        self.note(name).made
    }

    /// A block's author made it.
    pub fn make(&mut self, name: u32)
        requires { name < length self.old.notes.items }
        ensures long { length self.new.notes.items ≡ length self.old.notes.items }
        ensures noted { (ss : List Signature) (done : List ℕ) → Noted ss done self.old.notes.items → Noted ss (name ∷ done) self.new.notes.items }
    {
        self.notes[name as usize].made = true;
    }

    /// A member's signature of a block, whoever gave it.
    pub fn add(&mut self, member: u32, name: u32)
        requires who { member < 64 }
        requires there { name < length self.old.notes.items }
        ensures long { length self.new.notes.items ≡ length self.old.notes.items }
        ensures noted { (ss : List Signature) (done : List ℕ) → Noted ss done self.old.notes.items →
            Noted (record { who = member; name = name } ∷ ss) done self.new.notes.items }
    {
        self.notes[name as usize].signers.insert(member).unwrap();
    }

    /// The signature that a good member has leave to give.
    pub fn sign(&mut self, leave: LeaveToSign)
        requires who { leave.number < 64 }
        requires there { leave.name < length self.old.notes.items }
        ensures long { length self.new.notes.items ≡ length self.old.notes.items }
        ensures noted { (ss : List Signature) (done : List ℕ) → Noted ss done self.old.notes.items →
            Noted (record { who = leave.number; name = leave.name } ∷ ss) done self.new.notes.items }
    {
        let Spent { number, name } = leave.spend();
        self.add(number, name);
    }
}
