// Going over a block's parents.
ghost use Rattle.std.specs.Prelude.{◌≡◌};
ghost use Rattle.std.specs.Iterator.{YieldsFirst, item_count};

use crate::library::Library;
use std::marker::Model;
use std::ops::Range;

/// The names of a block's parents, in order; clauses see the list of those that are still to come.
#[derive(Drop)]
pub struct Parents<'a, B: Library> {
    book: &'a B,
    name: u32,
    places: Range<u32>,
}

impl<'a, B: Library> Model for Parents<'a, B> {
    ghost use Rattle.std.specs.Prelude.{◌≡◌, ◌≤◌, ℕ, List, length, drop};

    ghost Value = { List ℕ };

    ghost view = { λ p. drop p.places.start (B.Library.what p.book.now p.name).parents };

    ghost invariant = { λ p. (p.places.start ≤ p.places.end) × (p.places.end ≡ length (B.Library.what p.book.now p.name).parents) };
}

/// The names of the parents of this block.
pub fn parents_of<B: Library>(book: &B, name: u32) -> Parents<'_, B>
    ensures { result ≡ (B.Library.what book.now name).parents }
{
    Parents {
        book,
        name,
        places: 0..book.parents(name),
    }
}

impl<B: Library> Iterator for Parents<'_, B> {
    type Item = u32;

    ghost next_gives = { YieldsFirst (λ rest. rest) };

    ghost remaining = { item_count (λ rest. rest) };

    fn next(&mut self) -> Option<u32> {
        let place = self.places.next()?;
        Some(self.book.parent(self.name, place))
    }
}
