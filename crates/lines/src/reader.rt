// The lines of an input, one after the other.
ghost use Rattle.std.specs.Prelude.{◌≡◌, ℕ, List, [], Option, MatchResult, MatchBool};
ghost use Rattle.std.specs.Borrow.{sem};
ghost use Rattle.std.specs.Io.KnownBytes.{IsAtEnd};
ghost use Rattle.std.specs.Io.BufRead.{Rests};
ghost use Rattle.lines.specs.contracts.reader.LineReader.{the_row};
ghost use Rattle.lines.specs.Buffers.{Keeps};
ghost use Rattle.lines.specs.Chunks.{to_come};
ghost use Rattle.lines.specs.Reading.{TakesLine, TakesPart, GivesLine};

use crate::buffer::{LineBuffer, TooLong};
use crate::chunks::Chunks;
use std::alloc::Global;
use std::io;
use std::io::Read;

const LINE_END: u8 = b'\n';

/// Reads lines, which are bytes and end with a line feed; the last one may lack it.
#[derive(Drop)]
pub struct LineReader<R> {
    input: Chunks<R>,
    line: LineBuffer,
}

impl<R: Read> LineReader<R> {
    /// Before the first line.
    pub fn new(heap: Global, input: R) -> LineReader<R>
        ensures input { to_come R.remaining result.input ≡ R.remaining input }
        ensures line { Keeps result.line [] }
    {
        LineReader {
            input: Chunks::new(input),
            line: LineBuffer::new(heap),
        }
    }

    /// The next line; none at the end of the input. A line that is too long to be held is read to its end. An error loses what was read of the line.
    pub fn next_line(&mut self) -> io::Result<Option<Result<&[u8], TooLong>>>
        ensures given { (rest : Option (List ℕ)) × GivesLine (to_come R.remaining self.old.input) rest result }
        ensures* after_borrow { sem 𝓛 (Rests (the_row R.row) self.entry (λ new.
            GivesLine (to_come R.remaining self.old.input) (to_come R.remaining new.input) result)) }
    {
        if !self.read()? {
            return Ok(None);
        }
        let line = self.line.line();
        Ok(Some(line))
    }

    /// Reads the next line into the buffer, and says whether there was one. (A function of its own: `next_line` lends the buffer, which is filled before.
    /// It isn't written out where it is called: there each byte took more instructions, for the errors that the caller passes on.)
    #[inline(never)]
    fn read(&mut self) -> io::Result<bool>
        ensures { MatchResult result
            (λ there. MatchBool there
            ((line : List ℕ) × Keeps self.new.line line × TakesLine (to_come R.remaining self.old.input) (to_come R.remaining self.new.input) line)
            (IsAtEnd (to_come R.remaining self.old.input) × IsAtEnd (to_come R.remaining self.new.input)))
            (λ _. TakesPart (to_come R.remaining self.old.input) (to_come R.remaining self.new.input)) }
    {
        self.line.clear();
        // counted, since each loop is proved to end, and nothing says how long a line is
        for _ in 0..u64::MAX {
            let next = match self.input.next_waiting() {
                Some(byte) => Some(byte),
                None => self.input.next_byte()?,
            };
            let Some(byte) = next else {
                return Ok(!self.line.is_empty());
            };
            if byte == LINE_END {
                return Ok(true);
            }
            self.line.push(byte)?;
        }
        // no input lives to see the count's end; that no line is left would not be true there
        Err(io::Error::from(io::ErrorKind::FileTooLarge))
    }
}
