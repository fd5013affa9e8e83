//! Which command a line names, and which words stand behind the name.

ghost use Rattle.std.specs.Prelude.{◌≡◌, ◌∷◌, [], None, MatchOption, codes, length};
ghost use Rattle.script_text.specs.Grammar.{words_in};
ghost use Rattle.script_text.specs.Refused.{asked as asked_lem, fault_asked as fault_asked_lem, is_too_few_or_many, command_shapes, fault_shapes, shape_named, plain_shape, shape_of};
ghost use Rattle.script_text.specs.Reading.{asked_of, NamesFront, IsNamed, IsFaultNamed, late_shapes};

use crate::words::{is_word, next_word};
use history_rules::FaultKind;

/// A command that is read without memory.
#[derive(Clone, Copy)]
pub enum Plain {
    Publish,
    Copy,
    Settle,
    Open,
    Close,
    Commit,
    Crash,
    Reopen,
    Promote,
    Merge,
    Drain,
    Files,
}

/// The name of a command.
#[derive(Clone, Copy)]
pub enum Name {
    Put,
    Delete,
    Drop,
    Search,
    Ask,
    Plain(Plain),
    /// A planned fault of this kind.
    Fault(FaultKind),
}

/// What the words behind a lane ask for.
#[derive(Clone, Copy)]
pub enum Asked<'a> {
    /// The word that names it is missing.
    Missing,
    /// The word that names it is none of the table's.
    Unknown,
    /// The command of this name, and what the line has behind the name.
    Command(Name, &'a [u8]),
}

/// The command of a name among the first nine of the table.
fn early_command(word: &[u8]) -> Option<Name>
    ensures { MatchOption result
        (shape_named word.now command_shapes ≡ shape_named word.now late_shapes)
        (IsNamed word.now command_shapes) }
{
    if is_word(b"put", word) {
        Some(Name::Put)
    } else if is_word(b"delete", word) {
        Some(Name::Delete)
    } else if is_word(b"drop", word) {
        Some(Name::Drop)
    } else if is_word(b"publish", word) {
        Some(Name::Plain(Plain::Publish))
    } else if is_word(b"copy", word) {
        Some(Name::Plain(Plain::Copy))
    } else if is_word(b"settle", word) {
        Some(Name::Plain(Plain::Settle))
    } else if is_word(b"search", word) {
        Some(Name::Search)
    } else if is_word(b"open", word) {
        Some(Name::Plain(Plain::Open))
    } else if is_word(b"ask", word) {
        Some(Name::Ask)
    } else {
        None
    }
}

/// The command of a name among the others of the table.
fn late_command(word: &[u8]) -> Option<Name>
    ensures { MatchOption result (shape_named word.now late_shapes ≡ None)
        (IsNamed word.now late_shapes) }
{
    if is_word(b"close", word) {
        Some(Name::Plain(Plain::Close))
    } else if is_word(b"commit", word) {
        Some(Name::Plain(Plain::Commit))
    } else if is_word(b"crash", word) {
        Some(Name::Plain(Plain::Crash))
    } else if is_word(b"reopen", word) {
        Some(Name::Plain(Plain::Reopen))
    } else if is_word(b"promote", word) {
        Some(Name::Plain(Plain::Promote))
    } else if is_word(b"merge", word) {
        Some(Name::Plain(Plain::Merge))
    } else if is_word(b"drain", word) {
        Some(Name::Plain(Plain::Drain))
    } else if is_word(b"files", word) {
        Some(Name::Plain(Plain::Files))
    } else {
        None
    }
}

/// The command of a name.
#[tactic(auto, using(crate::proofs::ShapeLemmas::named_late))]
fn command_named(word: &[u8]) -> Option<Name>
    ensures { MatchOption result (shape_named word.now command_shapes ≡ None)
        (IsNamed word.now command_shapes) }
{
    match early_command(word) {
        Some(name) => Some(name),
        None => late_command(word),
    }
}

/// The planned fault of a name.
fn fault_named(word: &[u8]) -> Option<Name>
    ensures { MatchOption result (shape_named word.now fault_shapes ≡ None)
        (IsFaultNamed word.now) }
{
    if is_word(b"link", word) {
        Some(Name::Fault(FaultKind::Link))
    } else if is_word(b"damage", word) {
        Some(Name::Fault(FaultKind::Damage))
    } else if is_word(b"disk", word) {
        Some(Name::Fault(FaultKind::Disk))
    } else if is_word(b"stop", word) {
        Some(Name::Fault(FaultKind::Stop))
    } else {
        None
    }
}

/// What the words behind `fault` ask for.
fn fault_asked(line: &[u8]) -> Asked<'_>
    ensures asked { asked_of result ≡ fault_asked_lem (words_in line.now) }
    ensures front { NamesFront (codes "fault" ∷ words_in line.now) result }
{
    let Some((kind, rest)) = next_word(line) else {
        return Asked::Missing;
    };
    match fault_named(kind) {
        Some(name) => Asked::Command(name, rest),
        None => Asked::Unknown,
    }
}

/// What the words behind a lane ask for.
pub fn command_asked(line: &[u8]) -> Asked<'_>
    ensures asked { asked_of result ≡ asked_lem (words_in line.now) }
    ensures front { NamesFront (words_in line.now) result }
{
    let Some((word, rest)) = next_word(line) else {
        return Asked::Missing;
    };
    if is_word(b"fault", word) {
        return fault_asked(rest);
    }
    match command_named(word) {
        Some(name) => Asked::Command(name, rest),
        None => Asked::Unknown,
    }
}

/// How many words a command that is read without memory has behind its name.
fn plain_count(plain: Plain) -> usize
    ensures { result ≡ length (plain_shape plain).words }
{
    match plain {
        Plain::Publish | Plain::Settle => 0,
        Plain::Open | Plain::Crash | Plain::Promote => 2,
        Plain::Copy | Plain::Close | Plain::Commit | Plain::Reopen => 1,
        Plain::Merge | Plain::Drain | Plain::Files => 1,
    }
}

/// How many words a command has behind its name, but for a text or a query.
fn word_count(name: Name) -> usize
    ensures { result ≡ length (shape_of name).words }
{
    match name {
        Name::Put | Name::Delete | Name::Drop | Name::Search | Name::Ask => 1,
        Name::Plain(plain) => plain_count(plain),
        Name::Fault(FaultKind::Damage) => 3,
        Name::Fault(_) => 2,
    }
}

/// Whether so many words behind a command's name are too few or too many.
#[tactic(auto, using(crate::proofs::ShapeLemmas::plain_tail, crate::proofs::ShapeLemmas::fault_tail))]
pub fn is_miscounted(name: Name, found: usize) -> bool
    ensures { result
        ≡ is_too_few_or_many (shape_of name).tail (length (shape_of name).words) found }
{
    let wanted = word_count(name);
    match name {
        Name::Put => found < wanted,
        Name::Search | Name::Ask => found <= wanted,
        Name::Delete | Name::Drop | Name::Plain(_) | Name::Fault(_) => found != wanted,
    }
}
