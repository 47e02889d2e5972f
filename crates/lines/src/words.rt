// The words of a line, separated by one space.
ghost use Rattle.std.specs.Prelude.{◌≡◌};
ghost use Rattle.std.specs.Iterator.{YieldsFirstRef, item_count};
ghost use Rattle.lines.specs.Words.{place_of, words_of, none, WordsJoin};
ghost use Rattle.lines.specs.Left.{left};

const SPACE: u8 = b' ';

/// The place of the first byte like this, or the length where there is none.
pub fn place_of(sought: u8, bytes: &[u8]) -> usize
    ensures { result ≡ place_of sought bytes.now }
{
    // two cases, since the check finds no proof of `unwrap_or`
    match bytes.iter().position(|byte| *byte == sought) {
        Some(place) => place,
        None => bytes.len(),
    }
}

/// The words of a line that are left to read. Where two spaces follow one another, or one stands at an end, a word is empty.
// The library's `Split` holds its closure, whose type has no name that a field could have; the crate bstr's can't be copied.
// Contracts say by the definition `left` which words they are: a type that is copied and holds a reference can have no `impl Model`.
#[derive(Clone, Copy, Debug)]
pub struct Words<'a> {
    rest: Option<&'a [u8]>,
}

impl<'a> Words<'a> {
    /// All words of a line.
    pub fn of(line: &'a [u8]) -> Words<'a>
        ensures { left result ≡ words_of line.now }
    {
        Words { rest: Some(line) }
    }

    /// Whether all words were given.
    pub fn is_done(&self) -> bool
        ensures { result ≡ none (left self.now) }
    {
        self.rest.is_none()
    }
}

impl<'a> Iterator for Words<'a> {
    type Item = &'a [u8];

    ghost next_gives = { YieldsFirstRef left };

    ghost remaining = { item_count left };

    /// The next word.
    fn next(&mut self) -> Option<&'a [u8]> {
        let bytes = self.rest.take()?;
        match bytes.iter().position(|byte| *byte == SPACE) {
            Some(place) => {
                self.rest = Some(&bytes[place + 1..]);
                Some(&bytes[..place])
            }
            None => Some(bytes),
        }
    }
}

/// A line's words, joined by spaces, are the line, and words without spaces are the words of the line that they join to.
pub fn words_join() -> u8
    ensures { WordsJoin }
{
    0
}
