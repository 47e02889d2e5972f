// A list in lent memory.
ghost use Rattle.std.specs.Prelude.{◌≡◌, ◌+◌, ◌≤◌, ◌<◌, [], ◌∷◌, ◌++◌, length, Decides};

use std::marker::Model;

/// It grows from the start of a slice that is lent to it, and its length can't pass the slice's. Clauses see the items, and for how many there is
/// room in all.
#[derive(Drop)]
pub(crate) struct LentList<'a, T> {
    slots: &'a mut [T],
    used: usize,
}

impl<'a, T> Model for LentList<'a, T> {
    ghost use Rattle.std.specs.Prelude.{◌≤◌, length, take};
    ghost use Rattle.book.specs.Lent.{Listed};

    ghost Value = { Listed T };

    ghost view = { λ l. record { items = take l.used l.slots.now; room = length l.slots.now } };

    ghost invariant = { λ l. l.used ≤ length l.slots.now };
}

impl<'a, T: Copy> LentList<'a, T> {
    // the empty list, whatever the memory held before
    pub(crate) fn new(slots: &'a mut [T]) -> LentList<'a, T>
        ensures empty { result.items ≡ [] }
        ensures room { result.room ≡ length slots.old }
    {
        LentList { slots, used: 0 }
    }

    pub(crate) fn len(&self) -> usize
        ensures { result ≡ length self.now.items }
    {
        self.used
    }

    // whether so many more find room
    pub(crate) fn has_room(&self, more: usize) -> bool
        ensures { Decides result (length self.now.items + more ≤ self.now.room) }
    {
        more <= self.slots.len() - self.used
    }

    pub(crate) fn as_slice(&self) -> &[T]
        ensures { result.now ≡ self.now.items }
    {
        &self.slots[..self.used]
    }

    pub(crate) fn push(&mut self, item: T)
        requires { length self.old.items < self.old.room }
        ensures items { self.new.items ≡ self.old.items ++ item ∷ [] }
        ensures room { self.new.room ≡ self.old.room }
    {
        self.slots[self.used] = item;
        self.used += 1;
    }

    pub(crate) fn extend_from_slice(&mut self, items: &[T])
        requires { length self.old.items + length items.now ≤ self.old.room }
        ensures items { self.new.items ≡ self.old.items ++ items.now }
        ensures room { self.new.room ≡ self.old.room }
    {
        let end = self.used + items.len();
        self.slots[self.used..end].copy_from_slice(items);
        self.used = end;
    }
}
