//! A report cut into lines, and a line into words.

ghost use Rattle.std.specs.Prelude.{◌≡◌, ◌<◌, ◌≤◌, ⊤, [], ◌∷◌, length, take_while, not, ◌==◌, MatchOption};
ghost use Rattle.report_reading.specs.Cuts.{is_end as is_end_lem, first_line as first_line_lem, behind_line, cut_words, later_words, are_none};

/// How many bytes stand before the first line feed.
fn line_len(text: &[u8]) -> usize
    ensures { result ≡ length (take_while (λ b. not (b == 10)) text.now) }
{
    text.iter().take_while(|b| **b != b'\n').count()
}

/// The first line of a text, with its line feed, and what stands behind it.
pub fn first_line(text: &[u8]) -> (&[u8], &[u8])
    ensures line { result.0.now ≡ first_line_lem text.now }
    ensures rest { result.1.now ≡ behind_line text.now }
    ensures shorter { 0 < length text.now → length result.1.now < length text.now }
{
    let len = line_len(text);
    if len < text.len() {
        text.split_at(len + 1)
    } else {
        text.split_at(len)
    }
}

/// The next line of a text, with its line feed, and what stands behind it.
pub fn next_line(text: &[u8]) -> Option<(&[u8], &[u8])>
    ensures lines { MatchOption result (text.now ≡ []) (λ parts. (parts.0.now ≡ first_line_lem text.now)
        × (parts.1.now ≡ behind_line text.now)) }
    ensures shorter { MatchOption result ⊤ (λ parts. length parts.1.now < length text.now) }
{
    if text.is_empty() {
        return None;
    }
    Some(first_line(text))
}

fn is_end(byte: u8) -> bool
    ensures { result ≡ is_end_lem byte }
{
    byte == b'\n' || byte == b' '
}

/// How many bytes stand before the first space or line feed.
fn word_len(text: &[u8]) -> usize
    ensures { result ≡ length (take_while (λ b. not (is_end_lem b)) text.now) }
{
    text.iter().take_while(|b| !is_end(**b)).count()
}

/// The first word of a text, and what stands behind it.
#[tactic(auto, using(crate::proofs::CutLemmas::cut_word))]
pub fn first_word(text: &[u8]) -> (&[u8], &[u8])
    ensures words { cut_words text.now ≡ result.0.now ∷ later_words result.1.now }
    ensures shorter { length result.1.now ≤ length text.now }
{
    text.split_at(word_len(text))
}

/// The next word behind one, and what stands behind it.
pub fn next_word(text: &[u8]) -> Option<(&[u8], &[u8])>
    ensures words { MatchOption result (later_words text.now ≡ []) (λ parts. later_words text.now
        ≡ parts.0.now ∷ later_words parts.1.now) }
    ensures shorter { MatchOption result ⊤ (λ parts. length parts.1.now < length text.now) }
{
    let (first, rest) = text.split_first()?;
    if *first == b'\n' {
        return None;
    }
    Some(first_word(rest))
}

/// Whether no word stands behind a word.
#[tactic(auto, using(crate::proofs::CutLemmas::none_behind))]
pub fn is_last(text: &[u8]) -> bool
    ensures { result ≡ are_none (later_words text.now) }
{
    match text.first() {
        Some(first) => *first == b'\n',
        None => true,
    }
}
