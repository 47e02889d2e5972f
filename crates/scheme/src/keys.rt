//! The members' secrets, and the file KEYS that they are read from.
//!
//! Nothing here prints a secret: `Secret` and `Keys` have neither `Debug` nor `Display`.

ghost use Rattle.std.specs.Prelude.{◌≡◌, ℕ, ◌+◌, ◌^◌, ◌<◌, min, List, length, Some, Ok, Err, MatchResult, ◌≢◌};
ghost use Rattle.std.specs.Iterator.{at_most};
ghost use Rattle.std.specs.Option.{option_map};
ghost use Rattle.scheme.specs.declared.keys.KeysError.TheVariants.{OutOfMemory};
ghost use Rattle.scheme.specs.Keys.{keys_of, secret_of, first_line, after_line, parsed, left, Gives, Fails, told};
ghost use Rattle.scheme.specs.Written.{ReadsBack, ReadsBackUnended, OnlyWritten};

use lines::hex;
use std::alloc::{AllocFailed, Global};
use std::fmt;

/// The length of a secret in bytes.
pub const SECRET_LENGTH: usize = 32;

/// What a member signs with.
#[derive(Drop)]
pub struct Secret(pub(crate) [u8; SECRET_LENGTH]);

/// The secrets of all members, in their order.
#[derive(Drop)]
pub struct Keys {
    pub(crate) secrets: Vec<Secret>,
}

/// Why a file is no KEYS of the committee. Lines are counted from 1.
#[derive(Clone, Copy, Debug, PartialEq, Eq)]
pub enum KeysError {
    /// The line is something else than a secret's digits.
    NotASecret { line: usize },
    /// The file ends before this line, which is a member's.
    Missing { line: usize },
    /// The file has this line, and there are no more members.
    TooMany { line: usize },
    /// There is no memory to hold the secrets.
    OutOfMemory,
}

// Display and From by hand: a derive of theirs states neither the text nor the variant.
impl fmt::Display for KeysError {
    ghost output = { λ e. Some (told e) };

    fn fmt<W: fmt::Write>(&self, f: &mut fmt::Formatter<W>) -> fmt::Result {
        match self {
            KeysError::NotASecret { line } => write!(
                f,
                "line {line}: not 64 lower-case hexadecimal digits"
            ),
            KeysError::Missing { line } => write!(f, "line {line}: missing"),
            KeysError::TooMany { line } => write!(f, "line {line}: one too many"),
            KeysError::OutOfMemory => write!(f, "out of memory"),
        }
    }
}

impl<T: Drop> From<AllocFailed<T>> for KeysError {
    ghost from_gives = { λ _ r. r ≡ OutOfMemory };

    fn from(_: AllocFailed<T>) -> KeysError {
        KeysError::OutOfMemory
    }
}

/// The secret whose digits a line is.
fn read_secret(line: &[u8]) -> Option<Secret>
    ensures { option_map (λ secret. secret.0) result ≡ secret_of line.now }
{
    hex::array_of(line).map(Secret)
}

/// The first line of a text, without its line feed, and what stands after it.
fn split_line(text: &[u8]) -> (&[u8], &[u8])
    ensures line { result.0.now ≡ first_line text.now }
    ensures rest { result.1.now ≡ after_line text.now }
{
    match text.iter().position(|byte| *byte == b'\n') {
        Some(end) => (&text[..end], &text[end + 1..]),
        None => (text, &[]),
    }
}

/// The secrets of a text that has a line for each member and nothing more, in the order of the members. The first item that is an error
/// says why the text is none; what comes after it says nothing.
#[derive(Drop)]
struct Secrets<'a> {
    /// The text that is left.
    rest: &'a [u8],
    /// The number of its first line.
    line: usize,
    /// The number of members whose lines it has.
    members: usize,
}

impl<'a> Secrets<'a> {
    /// The secrets of so many members.
    fn of(members: u32, text: &'a [u8]) -> Secrets<'a>
        ensures all { left result ≡ parsed 1 members text.now }
        ensures counts { result.line + result.members ≡ 1 + members }
    {
        Secrets {
            rest: text,
            line: 1,
            members: members as usize,
        }
    }
}

impl Iterator for Secrets<'_> {
    type Item = Result<Secret, KeysError>;

    ghost can_next = { λ s. s.line + s.members < 2 ^ 64 };

    ghost next_gives = { Gives };

    // One for each member, and one for what is too many.
    ghost remaining = { λ s. at_most (s.members + min 1 (length s.rest.now)) };

    fn next(&mut self) -> Option<Result<Secret, KeysError>> {
        let line = self.line;
        let Some(members) = self.members.checked_sub(1) else {
            if self.rest.is_empty() {
                return None;
            }
            self.rest = &[];
            return Some(Err(KeysError::TooMany { line }));
        };
        self.members = members;
        if self.rest.is_empty() {
            return Some(Err(KeysError::Missing { line }));
        }
        let (first, rest) = split_line(self.rest);
        self.rest = rest;
        self.line += 1;
        Some(read_secret(first).ok_or(KeysError::NotASecret { line }))
    }
}

/// Whether the text has a right line for each of so many members and nothing more; else the first error. It needs no memory.
fn check_lines(members: u32, text: &[u8]) -> Result<(), KeysError>
    ensures { MatchResult result
        (λ _. (secrets : List (List ℕ)) × (parsed 1 members text.now ≡ Ok secrets))
        (λ e. parsed 1 members text.now ≡ Err e) }
{
    for secret in Secrets::of(members, text) {
        secret?;
    }
    Ok(())
}

impl Keys {
    /// The secrets of a text whose lines are right; it fails for want of memory alone.
    fn read(heap: Global, members: u32, text: &[u8]) -> Result<Keys, KeysError>
        ensures { MatchResult result
            (λ keys. parsed 1 members text.now ≡ Ok (keys_of keys))
            (λ e. (e ≢ OutOfMemory) → parsed 1 members text.now ≡ Err e) }
    {
        let mut secrets = Vec::new(heap);
        for secret in Secrets::of(members, text) {
            secrets.push(secret?)?;
        }
        Ok(Keys { secrets })
    }

    /// Reads the secrets of a committee of so many members from the bytes of the file KEYS. A wrong file gets its error, whatever memory there
    /// is; want of memory is answered for right ones only.
    pub fn parse(heap: Global, members: u32, text: &[u8]) -> Result<Keys, KeysError>
        ensures { MatchResult result
            (λ keys. parsed 1 members text.now ≡ Ok (keys_of keys))
            (λ e. Fails e (parsed 1 members text.now)) }
    {
        check_lines(members, text)?;
        Keys::read(heap, members, text)
    }
}

/// The laws of a file KEYS, as theorems: what is written is read back, and nothing else is read. See specs/Written.antt.
pub fn keys_laws() -> u8
    ensures reads_back { ReadsBack }
    ensures reads_back_unended { ReadsBackUnended }
    ensures only_written { OnlyWritten }
{
    0
}
