// The order that a member reads, and the line that tells it.
ghost use Rattle.std.specs.Prelude.{◌≡◌, ℕ, map, take, IfOk, vec_items};
ghost use Rattle.std.specs.Option.{option_map};
ghost use Rattle.lines.specs.Words.{joined};
ghost use Rattle.rehearsal.specs.Words.{text_for};
ghost use Rattle.rehearsal.specs.Scenes.{Scene};
ghost use Rattle.rehearsal.specs.Played.{Plays};
ghost use Rattle.rehearsal.specs.Ordering.{OrderIs};

use super::Committee;
use replica::ROOM;
use std::alloc::{AllocError, Global};

/// The first so many names, or all where there are fewer.
fn first(heap: Global, names: &[u32], count: usize) -> Result<Vec<u32>, AllocError>
    ensures { IfOk result (λ v. v.items ≡ take count names.now) }
{
    Vec::from_slice(heap, &names[..count.min(names.len())])
}

impl Committee<'_> {
    /// The names of the order that a member reads; none if there is no such member. A bad member's is empty.
    pub fn order(&self, member: u32) -> Result<Option<Vec<u32>>, AllocError>
        ensures { IfOk result (λ o. (s : Scene) → Plays s self.now → OrderIs s member (option_map vec_items o)) }
    {
        if !self.faults.has_member(member) {
            return Ok(None);
        }
        if self.bad.contains(member) {
            return Ok(Some(Vec::new(self.heap)));
        }
        // a seat has no heap: it fills an array that is lent to it, and says how far
        let mut out = [0; ROOM];
        let book = self.book.view();
        let count = self.seats.order(member, &book, self.faults, &mut out);
        Ok(Some(first(self.heap, &out, count as usize)?))
    }

    /// The first words that were given to these blocks, on one line, with a space between any two.
    pub fn line_of(&self, names: &[u32]) -> Result<Vec<u8>, AllocError>
        ensures { IfOk result (λ line. line.items ≡ joined (map (λ (x : ℕ). text_for x self.now.words) names.now)) }
    {
        let mut line = Vec::new(self.heap);
        // a loop, since the standard library's `join` is for text, and a script's words are any bytes
        for (i, name) in names.iter().enumerate() {
            if i > 0 {
                line.push(b' ')?;
            }
            line.extend_from_slice(self.words.text_of(*name))?;
        }
        Ok(line)
    }
}
