// A text read word by word.
ghost use Rattle.std.specs.Prelude.{◌≡◌, ◌≤◌, is_some, IfSome, IfNone};
ghost use Rattle.std.specs.Option.{option_map};
ghost use Rattle.octets.specs.Fronts.{after};
ghost use Rattle.bounded.specs.Texts.{text_of};
ghost use Rattle.words.specs.Numerals.{number_after};
ghost use Rattle.words.specs.Hex.{bytes_after};
ghost use Rattle.words.specs.Scans.{with, rest_or};

use crate::hex::bytes_after;
use crate::numbers::number_after;
use bounded::text::Text;
use octets::strip;

// What is still to be read.
#[derive(Clone, Copy)]
pub struct Scanner<'a> {
    pub rest: &'a [u8],
}

impl<'a> Scanner<'a> {
    // Passes over a fixed text, if it stands here.
    pub fn skip(&mut self, word: &[u8]) -> bool
        ensures is { result ≡ is_some (after word.now self.old.rest.now) }
        ensures left { self.new.rest.now ≡ rest_or (after word.now self.old.rest.now) self.old.rest.now }
    {
        let Some(rest) = strip(self.rest, word) else {
            return false;
        };
        self.rest = rest;
        true
    }

    // The number behind a fixed text, if it is at most max. If there is none, all is still to be read.
    // Out of line: inlined in what reads a line of the book, each way out of it would clear the kilobytes that are answered
    // there.
    #[inline(never)]
    pub fn number(&mut self, word: &[u8], max: u64) -> Option<u64>
        ensures is { with result self.new.rest.now ≡ number_after word.now max self.old.rest.now }
        ensures stays { IfNone result (self.new.rest.now ≡ self.old.rest.now) }
        ensures within { IfSome result (λ n. n ≤ max) }
    {
        let (n, rest) = number_after(self.rest, word, max)?;
        self.rest = rest;
        Some(n)
    }

    // The bytes behind a fixed text, if they are at most N. If there are none, all is still to be read.
    pub fn bytes<const N: usize>(&mut self, word: &[u8]) -> Option<Text<N>>
        ensures is { with (option_map text_of result) self.new.rest.now ≡ bytes_after word.now N self.old.rest.now }
        ensures stays { IfNone result (self.new.rest.now ≡ self.old.rest.now) }
    {
        // No `?`: beside a slice, a text in what it passes on gets no proof.
        let Some((text, rest)) = bytes_after(self.rest, word) else {
            return None;
        };
        self.rest = rest;
        Some(text)
    }
}
