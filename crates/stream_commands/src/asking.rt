//! Which command the words ask for.

ghost use Rattle.std.specs.Prelude.{◌≡◌, ◌↔◌, [], ◌∷◌, IsTrue, MatchOption};
ghost use Rattle.stream_commands.specs.Numbered.{AreNameAndNumber, AreNameAndSome};

use nrt_streams::Arg;
use script_text::number_u32;

fn is_same(word: &[u8], other: &[u8]) -> bool
    ensures { IsTrue result ↔ (word.now ≡ other.now) }
{
    word == other
}

/// Whether the words are this one alone.
pub fn is_word(words: &[Arg], word: &[u8]) -> bool
    ensures { IsTrue result ↔ (words.now ≡ word.now ∷ []) }
{
    match words {
        [only] => is_same(only.as_slice(), word),
        _ => false,
    }
}

/// Whether the words are these two.
pub fn is_pair(words: &[Arg], one: &[u8], other: &[u8]) -> bool
    ensures { IsTrue result ↔ (words.now ≡ one.now ∷ other.now ∷ []) }
{
    match words {
        [first, second] => is_same(first.as_slice(), one) && is_same(second.as_slice(), other),
        _ => false,
    }
}

/// The number behind this name, from 1 to that one, where the words are such.
#[tactic(auto, using(crate::proofs::Numbers::other_words, crate::proofs::Numbers::first_is))]
pub fn number_asked(words: &[Arg], name: &[u8], most: u32) -> Option<u32>
    ensures { MatchOption result (¬ AreNameAndSome name.now most words.now)
        (AreNameAndNumber name.now most words.now) }
{
    match words {
        [first, second] => {
            if is_same(first.as_slice(), name) {
                number_u32(1, most, second.as_slice())
            } else {
                None
            }
        }
        _ => None,
    }
}
