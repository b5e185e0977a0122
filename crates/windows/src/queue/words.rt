// Words come in at the end and go out at the front.
ghost use Rattle.std.specs.Prelude.{◌≡◌, [], Decides};
ghost use Rattle.pages.specs.Browser.{other_words};
ghost use Rattle.std.specs.Option.{option_map};
ghost use Rattle.windows.specs.Queues.{word_of, words_of, same_words, appended, oldest};
ghost use Rattle.std.specs.Ordering.{on};
ghost use Rattle.std.specs.Cmp.Lexicographic.{pointwise};
ghost use Rattle.std.specs.Cmp.Rules.{comparing};
ghost use Rattle.std.proofs.Common.{rules};

use super::{Queue, Word};
use bounded::fixed::FixedVec;

// By hand: a derive carries no clause, and what `==` decides is promised.
impl PartialEq for Word {
    ghost eq = { on word_of same_words };

    ghost laws = { Prim.search (comparing, rules) };

    fn eq(&self, other: &Word) -> bool
        ensures is { result ≡ on word_of same_words self.now other.now }
        ensures same { Decides result (word_of self.now ≡ word_of other.now) }
    {
        self.from == other.from && self.text == other.text
    }
}

impl Queue {
    // No words. The places are filled with one that is never told.
    pub(crate) fn empty(filler: Word) -> Queue
        ensures { words_of result ≡ [] }
    {
        Queue {
            words: FixedVec::empty(filler),
        }
    }

    // One word more, if fewer than eight wait.
    pub(crate) fn push(&mut self, word: &Word)
        ensures { words_of self.new ≡ appended (word_of word.now) (words_of self.old) }
    {
        let _ = self.words.push(*word);
    }

    // The oldest word, if one waits. It waits no more.
    pub(crate) fn pop(&mut self) -> Option<Word>
        ensures word { option_map word_of result ≡ oldest (words_of self.old) }
        ensures others { words_of self.new ≡ other_words (words_of self.old) }
    {
        self.words.pop_first()
    }
}

// By hand: a derive carries no clause, and what `==` decides is promised.
impl PartialEq for Queue {
    ghost eq = { on words_of (pointwise same_words) };

    ghost laws = { Prim.search (comparing, rules) depth 12 };

    fn eq(&self, other: &Queue) -> bool
        ensures is { result ≡ on words_of (pointwise same_words) self.now other.now }
        ensures same { Decides result (words_of self.now ≡ words_of other.now) }
    {
        self.words == other.words
    }
}
