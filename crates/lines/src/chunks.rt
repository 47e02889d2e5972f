// The bytes of an input one by one, read a chunk at a time into memory of the reader's own.
ghost use Rattle.std.specs.Prelude.{◌≡◌, ◌≤◌, ◌<◌, [], ◌∷◌};
ghost use Rattle.lines.specs.declared.chunks.TheConstants.{CHUNK};

use std::io;
use std::io::Read;
use std::ops::Range;

// So many bytes of the input are read at once.
const CHUNK: usize = 4096;

/// An input and the chunk that was read last, with the places in it of the bytes that weren't given yet. A reader of lines is made without asking for
/// memory, which the library's `BufReader` does, so the chunk is an array.
#[derive(Drop)]
pub(crate) struct Chunks<R> {
    input: R,
    chunk: [u8; CHUNK],
    waiting: Range<usize>,
    ghost fits: { waiting.end ≤ CHUNK },
}

impl<R: Read> Chunks<R> {
    ghost use Rattle.std.specs.Prelude.{MatchResult, MatchOption};
    ghost use Rattle.std.specs.Io.KnownBytes.{Keeps, Consumes, IsAtEnd};
    ghost use Rattle.lines.specs.Chunks.{unread, to_come, GivesByte};

    // Contracts say by `to_come` which bytes will be given, and no list is the value of this (an `impl Model`): of the input's it is known for some inputs alone.

    /// Before the first byte.
    pub(crate) fn new(input: R) -> Chunks<R>
        ensures unread { unread result ≡ [] }
        ensures input { result.input ≡ input }
    {
        Chunks {
            input,
            chunk: [0; CHUNK],
            waiting: 0..0,
        }
    }

    /// The next byte of the chunk that was read last; where all of it is given, none, and nothing changes. (A loop over bytes asks here first: with the
    /// error that `next_byte` may answer, each byte took a third more instructions.)
    pub(crate) fn next_waiting(&mut self) -> Option<u8>
        ensures { MatchOption result
            ((self.new ≡ self.old) × (self.old.waiting.end ≤ self.old.waiting.start))
            (λ byte. Consumes (to_come R.remaining self.old) (to_come R.remaining self.new) (byte ∷ [])) }
    {
        if self.waiting.is_empty() {
            return None;
        }
        Some(self.give())
    }

    /// The next byte; none at the end of the input. An error loses nothing.
    pub(crate) fn next_byte(&mut self) -> io::Result<Option<u8>>
        ensures { GivesByte (to_come R.remaining self.old) (to_come R.remaining self.new) result }
    {
        self.fill()?;
        Ok(self.next_waiting())
    }

    // Reads a chunk, if all of the last one is given. What is to come stays the same.
    fn fill(&mut self) -> io::Result<()>
        ensures { MatchResult result
            (λ _. Keeps (to_come R.remaining self.old) (to_come R.remaining self.new)
            × (self.new.waiting.end ≤ self.new.waiting.start → IsAtEnd (to_come R.remaining self.new)))
            (λ _. Keeps (to_come R.remaining self.old) (to_come R.remaining self.new)) }
    {
        if self.waiting.is_empty() {
            self.waiting = 0..self.input.read(&mut self.chunk)?;
        }
        Ok(())
    }

    // The first byte of the chunk that wasn't given yet.
    fn give(&mut self) -> u8
        requires { self.old.waiting.start < self.old.waiting.end }
        ensures byte { unread self.old ≡ result ∷ unread self.new }
        ensures input { self.new.input ≡ self.old.input }
    {
        let place = self.waiting.start;
        self.waiting.start += 1;
        self.chunk[place]
    }
}
