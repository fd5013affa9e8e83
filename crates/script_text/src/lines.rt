//! A text, cut into lines, and the statements among them.

ghost use Rattle.std.specs.Prelude.{◌≡◌, ◌<◌, ◌≤◌, ◌+◌, ◌^◌, ⊤, [], ◌∷◌, length, take_while, not, MatchOption};
ghost use Rattle.script_text.specs.Grammar.{lines_of_text, statements_from, is_statement as is_statement_lem};
ghost use Rattle.script_text.specs.Reading.{IsNextStatement, is_line_feed};

use crate::words::without_spaces;

/// A line that is a statement, and its number.
#[derive(Clone, Copy)]
pub struct Statement<'a> {
    pub number: u32,
    pub line: &'a [u8],
}

/// How many bytes stand before the first line feed.
fn line_len(text: &[u8]) -> usize
    ensures { result ≡ length (take_while (λ b. not (is_line_feed b)) text.now) }
{
    text.iter().take_while(|b| **b != b'\n').count()
}

/// The first line of a text, without its line feed, and what follows it.
#[tactic(auto, using(crate::proofs::LineLemmas::first_line, crate::proofs::LineLemmas::only_line))]
fn next_line(text: &[u8]) -> Option<(&[u8], &[u8])>
    ensures lines { MatchOption result (lines_of_text text.now ≡ [])
        (λ parts. lines_of_text text.now ≡ parts.0.now ∷ lines_of_text parts.1.now) }
    ensures shorter { MatchOption result ⊤ (λ parts. length parts.1.now < length text.now) }
{
    if text.is_empty() {
        return None;
    }
    let len = line_len(text);
    if len < text.len() {
        Some((&text[..len], &text[len + 1..]))
    } else {
        Some((text, &text[text.len()..]))
    }
}

/// Whether a line is a statement: not empty, not only spaces, and no comment.
#[tactic(auto, using(crate::proofs::LineLemmas::statement_by_first, crate::proofs::LineLemmas::no_statement))]
fn is_statement(line: &[u8]) -> bool
    ensures { result ≡ is_statement_lem line.now }
{
    match without_spaces(line).first() {
        Some(first) => *first != b'#',
        None => false,
    }
}

/// The first statement of a text whose first line has this number, and the rest of the text.
pub fn next_statement(text: &[u8], number: u32) -> Option<(Statement<'_>, &[u8])>
    requires { number + length text.now < 2 ^ 32 }
    ensures { MatchOption result (statements_from number (lines_of_text text.now) ≡ [])
        (λ parts. IsNextStatement number text.now parts.0.number parts.0.line.now parts.1.now) }
{
    let mut left = text;
    let mut number = number;
    while let Some((line, rest)) = next_line(left) {
        if is_statement(line) {
            return Some((Statement { number, line }, rest));
        }
        left = rest;
        number += 1;
    }
    None
}

/// How many lines a text has.
pub fn line_count(text: &[u8]) -> u32
    requires { length text.now < 2 ^ 32 }
    ensures count { result ≡ length (lines_of_text text.now) }
    ensures bounded { result ≤ length text.now }
{
    let mut left = text;
    let mut count = 0u32;
    while let Some((_, rest)) = next_line(left) {
        left = rest;
        count += 1;
    }
    count
}
