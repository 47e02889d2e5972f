// The trait of books: which block a name stands for.
ghost use Rattle.std.specs.Prelude.{◌≡◌, length, slice_index};
ghost use Rattle.model.specs.Blocks.{Book};

mod going_over;

pub use going_over::{Parents, parents_of};

// A book knows each block by its name; `what` tells which block that is.
pub trait Library {
    ghost what: { Self → Book };

    // the member that made the block
    fn author(&self, name: u32) -> u32
        ensures { result ≡ (what self.now name).author };

    fn round(&self, name: u32) -> u32
        ensures { result ≡ (what self.now name).round };

    // how many parents it has
    fn parents(&self, name: u32) -> u32
        ensures { result ≡ length (what self.now name).parents };

    // the name of its parent at a place, from 0; 0 past the last one, as the definition reads a list, and no `Option`: who goes over the parents, as
    // `parents_of` does, asks for places below their number alone
    fn parent(&self, name: u32, at: u32) -> u32
        ensures { result ≡ slice_index (what self.now name).parents at };
}
