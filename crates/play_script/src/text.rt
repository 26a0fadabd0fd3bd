//! Lines of words in a fixed buffer.
ghost use Rattle.std.specs.Prelude.{◌≡◌, ℕ, ◌+◌, ◌<◌, ◌≤◌, List, [], ◌∷◌, ◌++◌, length, map, take, sum_by};
ghost use Rattle.play_script.specs.Texts.{line as line_of};
ghost use Rattle.play_script.specs.Words.{bytes_of, room_of};

use itoa::Buffer;
use std::marker::Model;

/// A printed line of at most 160 bytes, which takes no memory.
#[derive(Drop)]
pub struct Text {
    bytes: [u8; 160],
    len: usize,
}

impl Model for Text {
    ghost use Rattle.std.specs.Prelude.{ℕ, ◌≤◌, List, take};

    ghost Value = { List ℕ };

    ghost view = { λ t. take t.len t.bytes };

    ghost invariant = { λ t. t.len ≤ 160 };
}

impl Text {
    fn new() -> Text
        ensures { result ≡ [] }
    {
        Text {
            bytes: [0; 160],
            len: 0,
        }
    }

    /// The bytes of the line, its end among them.
    pub fn bytes(&self) -> &[u8]
        ensures value { result.now ≡ self.now }
        ensures short { length self.now ≤ 160 }
    {
        &self.bytes[..self.len]
    }

    fn push(&mut self, bytes: &[u8])
        requires { length self.old + length bytes.now ≤ 160 }
        ensures { self.new ≡ self.old ++ bytes.now }
    {
        let end = self.len + bytes.len();
        self.bytes[self.len..end].copy_from_slice(bytes);
        self.len = end;
    }
}

/// A word of a line: a text, or a decimal number.
#[derive(Clone, Copy)]
pub(crate) enum Word<'a> {
    Plain(&'a str),
    Short(u32),
    Long(u64),
}

fn push_word(text: &mut Text, word: Word)
    requires { length text.old + room_of word < 160 }
    ensures value { text.new ≡ text.old ++ 32 ∷ bytes_of word.entry }
    ensures room { length (bytes_of word.entry) ≤ room_of word.entry }
{
    text.push(b" ");
    match word {
        Word::Plain(word) => text.push(word.as_bytes()),
        Word::Short(n) => text.push(Buffer::new().format(n).as_bytes()),
        Word::Long(n) => text.push(Buffer::new().format(n).as_bytes()),
    }
}

#[tactic(auto, using(crate::proofs::WordByWord::join_is_flat_map))]
/// The verb and the words with a space between each two, and the line's end.
pub(crate) fn line(verb: &str, words: &[Word]) -> Text
    requires { length verb.now + sum_by (λ word. room_of word + 1) words.now < 160 }
    ensures { result ≡ line_of (verb.now ∷ map bytes_of words.now) }
{
    let mut text = Text::new();
    text.push(verb.as_bytes());
    for word in words {
        push_word(&mut text, *word);
    }
    text.push(b"\n");
    text
}
