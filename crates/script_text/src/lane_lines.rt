//! Statements behind the headers: lines of lanes, and ends of phases.

ghost use Rattle.std.specs.Prelude.{◌≡◌, ◌∷◌, IsTrue, true, false, codes, bytes_eq};
ghost use Rattle.script_text.specs.Grammar.{words_in};
ghost use Rattle.script_text.specs.Refused.{is_digits as is_digits_lem, is_printable as is_printable_lem};
ghost use Rattle.script_text.specs.Reading.{IsLaterRead, IsLineRead};

use crate::command::read_command;
use crate::counted::Counted;
use crate::fault::{LineFault, Refusal};
use crate::lines::Statement;
use crate::numbers::{is_digits, lane};
use crate::shapes::{Asked, command_asked, is_miscounted};
use crate::words::{is_printable, is_word, next_word, word_count};
use nrt_base::{At, LineNo};
use script_serving::Line;
use std::alloc::Global;

/// A statement that is no header.
#[derive(Drop)]
pub enum Later {
    /// The end of a phase.
    Join,
    /// A line of a lane.
    Line(Line),
}

/// A line of a lane, whose first word has digits alone, and what follows that word.
fn read_lane_line<'a>(
    alloc: Global,
    nodes: u8,
    log: bool,
    before: Counted,
    statement: Statement<'a>,
    lane_word: &'a [u8],
    rest: &'a [u8],
) -> Result<Line, Refusal>
    requires printable { IsTrue (is_printable_lem statement.line.now) }
    requires split { words_in statement.line.now ≡ lane_word.now ∷ words_in rest.now }
    requires lane { (bytes_eq (codes "join") lane_word.now ≡ false) × (is_digits_lem lane_word.now
        ≡ true) }
    ensures { IsLineRead nodes log before
        (record { number = statement.entry.number; line = statement.entry.line.now }) result }
{
    let (name, rest) = match command_asked(rest) {
        Asked::Missing => return Err(Refusal::Cause(LineFault::Count)),
        Asked::Unknown => return Err(Refusal::Cause(LineFault::Word)),
        Asked::Command(name, rest) => (name, rest),
    };
    if is_miscounted(name, word_count(rest)) {
        return Err(Refusal::Cause(LineFault::Count));
    }
    if !before.has_room(log, statement.line) {
        return Err(Refusal::Cause(LineFault::Range));
    }
    let Some(lane) = lane(lane_word) else {
        return Err(Refusal::Cause(LineFault::Range));
    };
    let command = read_command(alloc, nodes, name, statement.line, rest)?;
    let line = LineNo(statement.number);
    Ok(Line {
        at: At { lane, line },
        command,
    })
}

/// A statement that is no header, where there are so many nodes, a log or none, and so many statements before it.
pub fn read_later(
    alloc: Global,
    nodes: u8,
    log: bool,
    before: Counted,
    statement: Statement<'_>,
) -> Result<Later, Refusal>
    ensures { IsLaterRead nodes log before
        (record { number = statement.entry.number; line = statement.entry.line.now }) result }
{
    if !is_printable(statement.line) {
        return Err(Refusal::Cause(LineFault::Text));
    }
    let Some((word, rest)) = next_word(statement.line) else {
        return Err(Refusal::Cause(LineFault::Word));
    };
    if is_word(b"join", word) {
        if word_count(rest) > 0 {
            return Err(Refusal::Cause(LineFault::Count));
        }
        if !before.has_room(log, statement.line) {
            return Err(Refusal::Cause(LineFault::Range));
        }
        return Ok(Later::Join);
    }
    if !is_digits(word) {
        return Err(Refusal::Cause(LineFault::Word));
    }
    Ok(Later::Line(read_lane_line(alloc, nodes, log, before, statement, word, rest)?))
}
