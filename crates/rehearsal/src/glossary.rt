// The script's words for blocks.
ghost use Rattle.std.specs.Prelude.{◌≡◌, [], ◌∷◌, ◌++◌, IfOk, vec_items, OnOk, OnErr};
ghost use Rattle.std.specs.Option.{option_map};
ghost use Rattle.lines.specs.Left.{left};
ghost use Rattle.rehearsal.specs.Words.{name_in, names_in, text_for};

use lines::words::Words;
use std::alloc::{AllocError, Global};
use std::marker::Model;

/// A word that stands for the block of this name.
#[derive(Drop)]
pub struct Word {
    text: Vec<u8>,
    name: u32,
}

/// All words, the earliest first: contracts see the list of them alone.
// A list and no map: it is searched by word, and by name for the first word, so that there would have to be two maps, kept alike.
#[derive(Drop)]
pub struct Glossary {
    heap: Global,
    words: Vec<Word>,
}

impl Model for Glossary {
    ghost use Rattle.std.specs.Prelude.{List, map, vec_items};
    ghost use Rattle.rehearsal.specs.Words.{Naming};
    ghost use Rattle.rehearsal.specs.Glossaries.{naming_of};

    ghost Value = { List Naming };

    ghost view = { λ g. map naming_of (vec_items g.words) };
}

impl Glossary {
    /// No word yet.
    pub fn new(heap: Global) -> Glossary
        ensures { result ≡ [] }
    {
        Glossary {
            heap,
            words: Vec::new(heap),
        }
    }

    /// The name of the block that a word stands for.
    pub fn name_of(&self, text: &[u8]) -> Option<u32>
        ensures { result ≡ name_in text.now self.now }
    {
        self.words
            .iter()
            .find(|word| text == word.text.as_slice())
            .map(|word| word.name)
    }

    /// The names of the blocks that words stand for, if each of them stands for one.
    pub fn names_of(&self, texts: Words<'_>) -> Result<Option<Vec<u32>>, AllocError>
        ensures { IfOk result (λ o. option_map vec_items o ≡ names_in (left texts.entry) self.now) }
    {
        let mut names = Vec::new(self.heap);
        for text in texts {
            let Some(name) = self.name_of(text) else {
                return Ok(None);
            };
            names.push(name)?;
        }
        Ok(Some(names))
    }

    /// The first word that was given to the block of this name; nothing if it has none.
    pub fn text_of(&self, name: u32) -> &[u8]
        ensures { result.now ≡ text_for name self.now }
    {
        self.words
            .iter()
            .find(|word| word.name == name)
            .map_or(b"".as_slice(), |word| word.text.as_slice())
    }

    /// One more word.
    pub fn add(&mut self, text: &[u8], name: u32) -> Result<(), AllocError>
        ensures added { OnOk result (self.new ≡ self.old ++ (record { text = text.now; name = name } ∷ [])) }
        ensures else_same { OnErr result (self.new ≡ self.old) }
    {
        let text = Vec::from_slice(self.heap, text)?;
        self.words.push(Word { text, name })?;
        Ok(())
    }
}
