//! The words of a line.

ghost use Rattle.text_query.specs.Tokens.{is_space};
ghost use Rattle.std.specs.Prelude.{◌≡◌, ◌<◌, ⊤, ℕ, [], ◌∷◌, length, take_while, not, drop, MatchOption, bytes_eq};
ghost use Rattle.std.specs.List.{list_all};
ghost use Rattle.nrt_base.specs.Bytes.{is_text_byte};
ghost use Rattle.script_text.specs.Grammar.{words_in, without_spaces as without_spaces_lem, without_end as without_end_lem, behind_word as behind_word_lem, rest_behind as rest_behind_lem, word_at};
ghost use Rattle.script_text.specs.Refused.{is_printable as is_printable_lem};

/// How many spaces a line begins with.
fn space_len(line: &[u8]) -> usize
    ensures { result ≡ length (take_while is_space line.now) }
{
    line.iter().take_while(|b| **b == b' ').count()
}

/// How many bytes a line has before its first space.
fn word_len(line: &[u8]) -> usize
    ensures { result ≡ length (take_while (λ b. not (is_space b)) line.now) }
{
    line.iter().take_while(|b| **b != b' ').count()
}

/// A line without the spaces at its front.
#[tactic(auto, using(crate::proofs::WordLemmas::dropped_spaces))]
pub fn without_spaces(line: &[u8]) -> &[u8]
    ensures { result.now ≡ without_spaces_lem line.now }
{
    &line[space_len(line)..]
}

/// A line without the bytes before its first space.
#[tactic(auto, using(crate::proofs::WordLemmas::dropped_word))]
fn behind_word(line: &[u8]) -> &[u8]
    ensures { result.now ≡ behind_word_lem line.now }
{
    &line[word_len(line)..]
}

/// A line without the spaces at its end.
fn without_end(line: &[u8]) -> &[u8]
    ensures { result.now ≡ without_end_lem line.now }
{
    let mut left = line;
    while let Some((last, front)) = left.split_last() {
        if *last != b' ' {
            break;
        }
        left = front;
    }
    left
}

/// What a line has behind its first three words, without the spaces around it.
pub fn rest_behind(line: &[u8]) -> &[u8]
    ensures { result.now ≡ rest_behind_lem 3 line.now }
{
    let line = behind_word(without_spaces(line));
    let line = behind_word(without_spaces(line));
    let line = behind_word(without_spaces(line));
    without_end(without_spaces(line))
}

/// The first word of a line, and what follows it.
#[tactic(auto, using(crate::proofs::WordLemmas::split_word, crate::proofs::WordLemmas::no_word))]
pub fn next_word(line: &[u8]) -> Option<(&[u8], &[u8])>
    ensures words { MatchOption result (words_in line.now ≡ []) (λ parts. words_in line.now
        ≡ parts.0.now ∷ words_in parts.1.now) }
    ensures shorter { MatchOption result ⊤ (λ parts. length parts.1.now < length line.now) }
{
    let line = without_spaces(line);
    if line.is_empty() {
        return None;
    }
    let len = word_len(line);
    Some((&line[..len], &line[len..]))
}

/// Whether the two are one word.
pub fn is_word(name: &[u8], word: &[u8]) -> bool
    ensures { result ≡ bytes_eq name.now word.now }
{
    name == word
}

fn is_printable_byte(byte: u8) -> bool
    ensures { result ≡ is_text_byte byte }
{
    matches!(byte, 32..=126)
}

/// Whether every byte is printable.
pub fn is_printable(line: &[u8]) -> bool
    ensures { result ≡ is_printable_lem line.now }
{
    line.iter().all(|b| is_printable_byte(*b))
}

/// How many words a line has.
pub fn word_count(line: &[u8]) -> usize
    ensures { result ≡ length (words_in line.now) }
{
    let mut left = line;
    let mut count = 0usize;
    while let Some((_, rest)) = next_word(left) {
        left = rest;
        count += 1;
    }
    count
}

/// The first word of a line, no bytes where there is none, and what follows it.
fn word_and_rest(line: &[u8]) -> (&[u8], &[u8])
    ensures word { result.0.now ≡ word_at 0 (words_in line.now) }
    ensures rest { words_in result.1.now ≡ drop 1 (words_in line.now) }
{
    match next_word(line) {
        Some(parts) => parts,
        None => (&line[line.len()..], &line[line.len()..]),
    }
}

/// The first three words of a line, no bytes where they are missing.
#[derive(Clone, Copy)]
pub struct Words<'a> {
    pub first: &'a [u8],
    pub second: &'a [u8],
    pub third: &'a [u8],
}

/// The words of a line.
#[tactic(auto, using(crate::proofs::WordLemmas::later_word))]
pub fn first_words(line: &[u8]) -> Words<'_>
    ensures first { result.first.now ≡ word_at 0 (words_in line.now) }
    ensures second { result.second.now ≡ word_at 1 (words_in line.now) }
    ensures third { result.third.now ≡ word_at 2 (words_in line.now) }
{
    let (first, rest) = word_and_rest(line);
    let (second, rest) = word_and_rest(rest);
    let (third, _) = word_and_rest(rest);
    Words {
        first,
        second,
        third,
    }
}
