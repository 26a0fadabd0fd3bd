//! The words of a line, and the numbers among them.
ghost use Rattle.std.specs.Prelude.{◌≡◌, ◌≢◌, ℕ, ◌+◌, ◌<◌, ◌≤◌, [], ◌∷◌, ◌==◌, length, MatchOption, IfSome, if◌then◌else◌};
ghost use Rattle.std.specs.Char.{is_ascii_digit};
ghost use Rattle.std.specs.List.{slice_split, position, list_all};
ghost use Rattle.play_script.specs.Grammar.{number_of, value_of, words_of};
ghost use Rattle.play_script.specs.Parts.{parts_of};

use std::marker::Model;

fn place_of(bytes: &[u8], separator: u8) -> Option<usize>
    ensures { result ≡ position (λ b. b == separator) bytes.now }
{
    bytes.iter().position(|byte| *byte == separator)
}

/// What stands before the first such byte, and what stands behind it, if there is one.
#[tactic(auto, using(crate::proofs::Cuts::cut_at, crate::proofs::Cuts::cut_nowhere))]
pub(crate) fn cut(bytes: &[u8], separator: u8) -> (&[u8], Option<&[u8]>)
    ensures parts { slice_split (λ b. b == separator) bytes.now ≡ result.0.now ∷ parts_of separator result.1 }
    ensures shorter { IfSome result.1 (λ rest. length rest.now < length bytes.now) }
{
    match place_of(bytes, separator) {
        Some(end) => (&bytes[..end], Some(&bytes[end + 1..])),
        None => (bytes, None),
    }
}

/// The words of a line that are still to come.
#[derive(Drop)]
pub(crate) struct Words<'a> {
    rest: Option<&'a [u8]>,
}

impl<'a> Model for Words<'a> {
    ghost use Rattle.std.specs.Prelude.{ℕ, List};
    ghost use Rattle.play_script.specs.Parts.{parts_of};

    ghost Value = { List (List ℕ) };

    ghost view = { λ words. parts_of 32 words.rest };
}

impl<'a> Words<'a> {
    /// The words of a line: what stands between its spaces, or is empty there.
    pub fn of(line: &'a [u8]) -> Words<'a>
        ensures { result ≡ words_of line.now }
    {
        Words { rest: Some(line) }
    }

    /// The first word that is left, which is taken away; none if no word is left.
    pub fn next(&mut self) -> Option<&'a [u8]>
        ensures { MatchOption result ((self.old ≡ []) × (self.new ≡ [])) (λ word. self.old ≡ word.now ∷ self.new) }
    {
        let (word, rest) = cut(self.rest?, b' ');
        self.rest = rest;
        Some(word)
    }

    /// Nothing, if a word is left.
    pub fn end(&self) -> Option<()>
        ensures { MatchOption result (self.now ≢ []) (λ _. self.now ≡ []) }
    {
        match self.rest {
            Some(_) => None,
            None => Some(()),
        }
    }
}

/// The value of at most 18 digits.
fn value(word: &[u8]) -> Option<u64>
    requires { length word.now ≤ 18 }
    ensures { result ≡ (if list_all is_ascii_digit word.now then Some (value_of word.now) else None) }
{
    let mut n = 0;
    for digit in word {
        if !digit.is_ascii_digit() {
            return None;
        }
        n = n * 10 + u64::from(*digit - b'0');
    }
    Some(n)
}

/// The number that a word spells: 0, or at most 18 digits that do not begin with 0.
pub fn number(word: &[u8]) -> Option<u64>
    ensures { result ≡ number_of word.now }
{
    if word.is_empty() || word.len() > 18 || (word.len() > 1 && word[0] == b'0') {
        return None;
    }
    value(word)
}
