//! The tokens of a text.

ghost use Rattle.std.specs.Prelude.{◌≡◌, ◌+◌, ◌<◌, length, IfOk, IsTrue};
ghost use Rattle.std.specs.List.{list_all};
ghost use Rattle.documents.specs.Words.{is_alphanumeric as is_alphanumeric_lem, words_of};
ghost use Rattle.text_query.specs.Tokens.{run_of, quoted_of, token_of_run, token_of_words, token_of_quote, token_of_byte, token_at as token_at_lem, bytes_behind, tokens_of, is_quote};

use documents::words;
use nrt_base::{List, NoMemory, Word};
use std::alloc::Global;

/// A token of a query's text.
#[derive(Debug, Drop)]
pub enum Token {
    /// A word, quoted or not.
    Word(Word),
    /// A quoted text of two or more words.
    Phrase(List<Word>),
    /// `(`
    Open,
    /// `)`
    Close,
    And,
    Or,
    Not,
    /// What is no token: another byte, or a quote without an end or without a word.
    Stray,
}

/// A token and the place of its first byte in the text.
#[derive(Debug, Drop)]
pub struct Placed {
    pub at: usize,
    pub token: Token,
}

fn is_alphanumeric(b: u8) -> bool
    ensures { result ≡ is_alphanumeric_lem b }
{
    b.is_ascii_alphanumeric()
}

/// How many letters and digits the text begins with.
fn run_len(text: &[u8]) -> usize
    ensures { result ≡ length (run_of text.now) }
{
    text.iter().take_while(|b| is_alphanumeric(**b)).count()
}

/// How many bytes stand before the next quote.
fn quoted_len(text: &[u8]) -> usize
    ensures { result ≡ length (quoted_of text.now) }
{
    text.iter().take_while(|b| **b != b'"').count()
}

/// The word or the phrase of these bytes.
fn leaf(alloc: Global, bytes: &[u8]) -> Result<Token, NoMemory>
    ensures { IfOk result (λ token. token ≡ token_of_words (words_of bytes.now)) }
{
    let mut words = words(alloc, bytes)?;
    if words.len() > 1 {
        return Ok(Token::Phrase(List::from_vec(words)));
    }
    match words.pop() {
        Some(word) => Ok(Token::Word(word)),
        None => Ok(Token::Stray),
    }
}

/// The operator or the word that a run of letters and digits is.
#[tactic(auto, using(crate::proofs::TokenLemmas::words_of_run))]
fn run(alloc: Global, run: &[u8]) -> Result<Token, NoMemory>
    requires some { 0 < length run.now }
    requires run { IsTrue (list_all is_alphanumeric_lem run.now) }
    ensures { IfOk result (λ token. token ≡ token_of_run run.now) }
{
    if run == b"AND".as_slice() {
        Ok(Token::And)
    } else if run == b"OR".as_slice() {
        Ok(Token::Or)
    } else if run == b"NOT".as_slice() {
        Ok(Token::Not)
    } else {
        leaf(alloc, run)
    }
}

/// The mark that a byte is.
fn mark(b: u8) -> Token
    ensures { result ≡ token_of_byte b }
{
    match b {
        b'(' => Token::Open,
        b')' => Token::Close,
        _ => Token::Stray,
    }
}

/// The token that a text begins with, and how many bytes it takes behind its first.
fn token_at(alloc: Global, text: &[u8]) -> Result<(Token, usize), NoMemory>
    requires { 0 < length text.now }
    ensures token { IfOk result (λ found. found.0 ≡ token_at_lem text.now) }
    ensures bytes { IfOk result (λ found. found.1 ≡ bytes_behind text.now) }
{
    let behind = &text[1..];
    if is_alphanumeric(text[0]) {
        let len = run_len(behind);
        return Ok((run(alloc, &text[..len + 1])?, len));
    }
    if text[0] != b'"' {
        return Ok((mark(text[0]), 0));
    }
    let len = quoted_len(behind);
    let token = if len < behind.len() {
        leaf(alloc, &behind[..len])?
    } else {
        Token::Stray
    };
    Ok((token, len + 1))
}

/// The tokens of a text, each with the place of its first byte.
pub fn tokens(alloc: Global, text: &[u8]) -> Result<Vec<Placed>, NoMemory>
    ensures { IfOk result (λ tokens. tokens.items ≡ tokens_of text.now) }
{
    let mut tokens = Vec::new(alloc);
    let mut at = 0;
    while at < text.len() {
        if text[at] == b' ' {
            at += 1;
        } else {
            let (token, behind) = token_at(alloc, &text[at..])?;
            tokens.push(Placed { at, token })?;
            at += 1 + behind;
        }
    }
    Ok(tokens)
}
