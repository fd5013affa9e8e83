//! The words of a text.

ghost use Rattle.std.specs.Prelude.{◌≡◌, IfOk, IsTrue, OnOk, ◌++◌, [], map, bytes_eq};
ghost use Rattle.std.specs.List.{list_all};
ghost use Rattle.nrt_base.specs.Bytes.{is_word, is_word_byte};
ghost use Rattle.documents.specs.Words.{words_of, has_word, is_alphanumeric as is_alphanumeric_lem, lower as lower_lem, with_run};

use nrt_base::{NoMemory, Word};
use std::alloc::Global;

fn is_alphanumeric(b: u8) -> bool
    ensures { result ≡ is_alphanumeric_lem b }
{
    matches!(b, b'A'..=b'Z') || matches!(b, b'a'..=b'z') || matches!(b, b'0'..=b'9')
}

fn lower(b: u8) -> u8
    requires { IsTrue (is_alphanumeric_lem b) }
    ensures lower { result ≡ lower_lem b }
    ensures word { IsTrue (is_word_byte result) }
{
    if matches!(b, b'A'..=b'Z') { b + 32 } else { b }
}

// Ends a run, which is a word where it is not empty.
fn end_run(alloc: Global, run: &mut Vec<u8>, words: &mut Vec<Word>) -> Result<(), NoMemory>
    requires { IsTrue (list_all is_word_byte run.old.items) }
    ensures words { OnOk result (words.new.items ≡ words.old.items ++ with_run run.old.items []) }
    ensures run { OnOk result (run.new.items ≡ []) }
{
    if !run.is_empty() {
        words.push(Word::new(alloc, run.as_slice())?)?;
        run.clear();
    }
    Ok(())
}

/// The words of a text, in order: its longest runs of letters and digits, with capitals made small.
pub fn words(alloc: Global, text: &[u8]) -> Result<Vec<Word>, NoMemory>
    ensures { IfOk result (λ words. words.items ≡ words_of text.now) }
{
    let mut words = Vec::new(alloc);
    let mut run = Vec::new(alloc);
    for &b in text {
        if is_alphanumeric(b) {
            run.push(lower(b))?;
        } else {
            end_run(alloc, &mut run, &mut words)?;
        }
    }
    end_run(alloc, &mut run, &mut words)?;
    Ok(words)
}

// Whether a run of letters and digits is the word, with capitals made small.
fn is_run_of(run: &[u8], word: &[u8]) -> bool
    requires { IsTrue (is_word word.now) }
    ensures { result ≡ bytes_eq (map lower_lem run.now) word.now }
{
    run.eq_ignore_ascii_case(word)
}

/// Whether the word is among the words of a text.
pub fn has_word(text: &[u8], word: &Word) -> bool
    ensures { result ≡ has_word word.now (words_of text.now) }
{
    let word = word.as_slice();
    text.split(|b| !is_alphanumeric(*b))
        .any(|run| is_run_of(run, word))
}
