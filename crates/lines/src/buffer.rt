// The line that is being read, held up to a limit.
ghost use Rattle.std.specs.Prelude.{◌≡◌, ℕ, ◌<◌, ◌≤◌, List, [], ◌∷◌, ◌++◌, length, Some, MatchResult, is_ok, ◌==◌, if◌then◌else◌, codes};
ghost use Rattle.lines.specs.Buffers.{longest, Keeps};

use std::alloc::{AllocError, Global};
use std::{error, fmt};

/// A longer line isn't held.
pub const LONGEST: usize = 8192;

/// Why a line isn't held.
#[derive(Clone, Copy, Debug, PartialEq, Eq)]
pub struct TooLong;

impl fmt::Display for TooLong {
    ghost output = { λ _. Some (codes "a line is longer than 8192 bytes") };

    fn fmt<W: fmt::Write>(&self, f: &mut fmt::Formatter<W>) -> fmt::Result {
        f.write_str("a line is longer than 8192 bytes")
    }
}

impl error::Error for TooLong {}

/// The bytes of a line that have come so far, or that there are more than a line may have: then its first bytes stay, so that the next line is held in
/// the same memory.
// Contracts say by `Keeps` which lines it may hold, and no line as its value (an `impl Model`): of a line that is too long it holds a part alone.
#[derive(Drop)]
pub struct LineBuffer {
    bytes: Vec<u8>,
    whole: Result<(), TooLong>,
}

impl LineBuffer {
    /// No bytes yet.
    pub fn new(heap: Global) -> LineBuffer
        ensures { Keeps result [] }
    {
        LineBuffer {
            bytes: Vec::new(heap),
            whole: Ok(()),
        }
    }

    /// One more byte of the line. Where there is no memory for it, nothing changes.
    #[tactic(auto, using(std::proofs::lemmas::Grind::common_steps, crate::proofs::Keeping::one_lost))]
    pub fn push(&mut self, byte: u8) -> Result<(), AllocError>
        ensures { (line : List ℕ) → Keeps self.old line → Keeps self.new (if is_ok result then line ++ (byte ∷ []) else line) }
    {
        if self.bytes.len() < LONGEST {
            self.bytes.push(byte)?;
        } else {
            self.whole = Err(TooLong);
        }
        Ok(())
    }

    /// Whether no byte of the line has come.
    pub fn is_empty(&self) -> bool
        ensures { (line : List ℕ) → Keeps self.now line → result ≡ (length line == 0) }
    {
        self.bytes.is_empty()
    }

    /// The line, unless it is too long.
    pub fn line(&self) -> Result<&[u8], TooLong>
        ensures { (line : List ℕ) → Keeps self.now line →
            MatchResult result (λ bytes. (bytes.now ≡ line) × (length line ≤ longest)) (λ _. longest < length line) }
    {
        match self.whole {
            Ok(()) => Ok(self.bytes.as_slice()),
            Err(why) => Err(why),
        }
    }

    /// The next line begins.
    pub fn clear(&mut self)
        ensures { Keeps self.new [] }
    {
        self.bytes.clear();
        self.whole = Ok(());
    }
}
