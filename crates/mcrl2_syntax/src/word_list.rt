//! Lists of words.

ghost use Rattle.std.specs.Prelude.{◌≡◌, ◌∷◌, [], IfOk, length};

use crate::word::Word;
use std::alloc::AllocError;
use std::marker::Model;
use std::slice;

/// Where the words of a list stand.
#[derive(Debug, Drop)]
enum Kept {
    /// A lone one stands in the list itself.
    Lone(Word),
    /// They have a block of their own.
    Block(Vec<Word>),
}

/// Words, in their order. A lone one takes no memory of its own.
#[derive(Debug, Drop)]
pub struct WordList {
    kept: Kept,
}

impl Model for WordList {
    ghost use Rattle.mcrl2_syntax.specs.ListedWords.{ListedWords};

    ghost Value = { ListedWords };

    ghost use Rattle.mcrl2_syntax.specs.WordLists.{kept_words};

    ghost view = { λ list. record { items = kept_words list.kept } };
}

impl WordList {
    /// A lone word.
    pub fn lone(word: Word) -> WordList
        ensures { result.items ≡ word ∷ [] }
    {
        WordList {
            kept: Kept::Lone(word),
        }
    }

    /// A word in front of others.
    ///
    /// # Errors
    ///
    /// `AllocError` where no memory is left.
    pub fn led(first: Word, others: Vec<Word>) -> Result<WordList, AllocError>
        ensures { IfOk result (λ list. list.items ≡ first ∷ others.items) }
    {
        let mut words = others;
        words.reserve_exact(1)?;
        words.insert(0, first)?;
        Ok(WordList {
            kept: Kept::Block(words),
        })
    }

    /// The words. It takes no memory.
    pub fn as_slice(&self) -> &[Word]
        ensures value { result.now ≡ self.now.items }
        ensures len { length result.now ≡ length self.now.items }
    {
        match &self.kept {
            Kept::Lone(word) => slice::from_ref(word),
            Kept::Block(words) => words.as_slice(),
        }
    }
}
