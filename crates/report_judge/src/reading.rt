//! The entry that a line of a report is.

ghost use Rattle.std.specs.Prelude.{◌≡◌, ◌↔◌, IsTrue, IfOk};
ghost use Rattle.report_text.specs.Texts.{text_of_entry};
ghost use Rattle.script_serving.specs.Form.{IsInForm};
ghost use Rattle.report_judge.specs.Readings.{IsEntryRead, IsToldRead};

use crate::spots::{Spots, find_line};
use documents::Op;
use history_rules::Entry;
use nrt_base::{At, LaneNo, LineNo, NoMemory};
use report_reading::{count_word, entry_is_narrow, first_word, read_event};
use report_text::line as line_text;
use script_serving::{LineCommand, Script};
use std::alloc::Global;

/// Whether this line is that of an entry.
fn has_text(alloc: Global, entry: &Entry, line: &[u8]) -> Result<bool, NoMemory>
    ensures { IfOk result (λ has. IsTrue has ↔ (text_of_entry entry.now ≡ line.now)) }
{
    let text = line_text(alloc, entry)?;
    Ok(text.as_slice() == line)
}

/// The entry that a line is, if it is one of this place, with what this command has for it.
fn read_told(
    alloc: Global,
    at: At,
    due: &[Op],
    command: &LineCommand,
    line: &[u8],
) -> Result<Option<Entry>, NoMemory>
    ensures { IfOk result (IsToldRead at due.now command.now line.now) }
{
    let (_, rest) = first_word(line);
    let Some(event) = read_event(alloc, due, command, rest)? else {
        return Ok(None);
    };
    let entry = Entry { at, event };
    if !has_text(alloc, &entry, line)? {
        return Ok(None);
    }
    entry_is_narrow(&entry);
    Ok(Some(entry))
}

/// The entry that a line of a report is, with what its line of the script has for it.
pub fn read_entry(
    alloc: Global,
    spots: &Spots,
    script: &Script,
    due: &[Op],
    line: &[u8],
) -> Result<Option<Entry>, NoMemory>
    requires form { IsInForm script.now }
    ensures { IfOk result (IsEntryRead script.now due.now line.now) }
{
    let (word, _) = first_word(line);
    let Some(number) = count_word(word) else {
        return Ok(None);
    };
    match find_line(spots, number, script) {
        Some(told) => read_told(alloc, told.at, due, &told.command, line),
        None => {
            let at = At {
                lane: LaneNo(0),
                line: LineNo(number),
            };
            read_told(alloc, at, due, &LineCommand::Publish, line)
        }
    }
}
