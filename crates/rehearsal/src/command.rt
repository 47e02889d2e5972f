// What a line of a script says.
ghost use Rattle.std.specs.Prelude.{◌≡◌, ℕ, ◌<◌, List, ◌∷◌, length, Some, None, codes, ◌≢◌};
ghost use Rattle.lines.specs.Left.{left};
ghost use Rattle.lines.specs.Words.{words_of};
ghost use Rattle.rehearsal.specs.Saying.{Keyed, Described, spelled, Reads, MemberAndWord, JustMember, Describes};
ghost use Rattle.rehearsal.specs.Commands.{key_of, described, Parses, SaysOrNot};

use crate::act::Act;
use lines::numbers::number;
use lines::words::Words;
use std::error::Error;
use std::fmt;

/// A block, as a line describes it: the words of its parents are still to be read.
#[derive(Clone, Copy, Debug)]
pub struct BlockLine<'a> {
    pub word: &'a [u8],
    pub author: u32,
    pub round: u32,
    /// `-`, or bytes in hexadecimal.
    pub load: &'a [u8],
    pub parents: Words<'a>,
}

/// What a line asks for.
#[derive(Clone, Copy, Debug)]
pub enum Command<'a> {
    /// `block WORD AUTHOR ROUND LOAD PARENTS..`: a word for a block.
    Block(BlockLine<'a>),
    /// `makes MEMBER WORD` and the like: a step of a member.
    Step {
        act: Act,
        member: u32,
        word: &'a [u8],
    },
    /// `bad MEMBER`: the member is bad.
    Bad(u32),
    /// `order MEMBER`: the order that the member reads.
    Order(u32),
}

/// A line that isn't of one of these forms, or has a number that is too large for any.
#[derive(Clone, Copy, Debug, PartialEq, Eq)]
pub struct NotACommand;

impl fmt::Display for NotACommand {
    ghost output = { λ _. Some (codes "the line says nothing") };

    fn fmt<W: fmt::Write>(&self, f: &mut fmt::Formatter<W>) -> fmt::Result {
        f.write_str("the line says nothing")
    }
}

impl Error for NotACommand {}

/// The first words of commands.
#[derive(Clone, Copy)]
enum Keyword {
    Block,
    Step(Act),
    Bad,
    Order,
}

/// What stands behind the first word of a step.
#[derive(Clone, Copy)]
struct MemberWord<'a> {
    member: u32,
    word: &'a [u8],
}

fn keyword_of(word: &[u8]) -> Option<Keyword>
    ensures { elim result [ Some k ↦ word.now ≡ spelled (key_of k) | None ↦ ((k : Keyed) → word.now ≢ spelled k) ] }
{
    match word {
        b"block" => Some(Keyword::Block),
        b"makes" => Some(Keyword::Step(Act::Makes)),
        b"signs" => Some(Keyword::Step(Act::Signs)),
        b"takes" => Some(Keyword::Step(Act::Takes)),
        b"forges" => Some(Keyword::Step(Act::Forges)),
        b"bad" => Some(Keyword::Bad),
        b"order" => Some(Keyword::Order),
        _ => None,
    }
}

// the next word, which isn't empty
fn next_word<'a>(words: &mut Words<'a>) -> Option<&'a [u8]>
    ensures { elim result [
      | Some w ↦ (left words.old ≡ w.now ∷ left words.new) × (0 < length w.now)
      | None ↦ ((w : List ℕ) (ws : List (List ℕ)) → left words.old ≡ w ∷ ws → 0 < length w → ⊥)
    ] }
{
    words.next().filter(|word| !word.is_empty())
}

// the next word, which is a number
fn next_number(words: &mut Words<'_>) -> Option<u32>
    ensures { elim result [
      | Some n ↦ ((digits : List ℕ) × (left words.old ≡ digits ∷ left words.new) × Reads digits n)
      | None ↦ ((digits : List ℕ) (ws : List (List ℕ)) (n : ℕ) → left words.old ≡ digits ∷ ws → Reads digits n → ⊥)
    ] }
{
    number(words.next()?)
}

fn member_and_word(mut words: Words<'_>) -> Option<MemberWord<'_>>
    ensures { elim result [
      | Some m ↦ MemberAndWord (left words.entry) m.member m.word.now
      | None ↦ ((i : ℕ) (word : List ℕ) → MemberAndWord (left words.entry) i word → ⊥)
    ] }
{
    let member = next_number(&mut words)?;
    let word = next_word(&mut words)?;
    words.is_done().then_some(MemberWord { member, word })
}

fn just_member(mut words: Words<'_>) -> Option<u32>
    ensures { elim result [ Some i ↦ JustMember (left words.entry) i | None ↦ ((i : ℕ) → JustMember (left words.entry) i → ⊥) ] }
{
    let member = next_number(&mut words)?;
    words.is_done().then_some(member)
}

fn block_line(mut words: Words<'_>) -> Option<BlockLine<'_>>
    ensures { elim result [ Some d ↦ Describes (left words.entry) (described d) | None ↦ ((d : Described) → Describes (left words.entry) d → ⊥) ] }
{
    Some(BlockLine {
        word: next_word(&mut words)?,
        author: next_number(&mut words)?,
        round: next_number(&mut words)?,
        load: next_word(&mut words)?,
        parents: words,
    })
}

// what a line says
fn command_in(line: &[u8]) -> Option<Command<'_>>
    ensures { SaysOrNot (words_of line.now) result }
{
    let mut words = Words::of(line);
    match keyword_of(words.next()?)? {
        Keyword::Block => Some(Command::Block(block_line(words)?)),
        Keyword::Step(act) => {
            let MemberWord { member, word } = member_and_word(words)?;
            Some(Command::Step { act, member, word })
        }
        Keyword::Bad => Some(Command::Bad(just_member(words)?)),
        Keyword::Order => Some(Command::Order(just_member(words)?)),
    }
}

impl<'a> TryFrom<&'a [u8]> for Command<'a> {
    type Error = NotACommand;

    ghost try_from_gives = { λ line r. Parses line.now r };

    fn try_from(line: &'a [u8]) -> Result<Command<'a>, NotACommand> {
        command_in(line).ok_or(NotACommand)
    }
}
