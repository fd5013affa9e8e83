//! The line of an entry, and the report of a history.

ghost use Rattle.std.specs.Prelude.{◌≡◌, ◌++◌, OnOk, IfOk};
ghost use Rattle.std.specs.List.{flat_map};
ghost use Rattle.report_text.specs.Texts.{text_of_entry, text_of};

use crate::events::push_event;
use crate::words::push_number;
use history_rules::{Entry, History};
use nrt_base::NoMemory;
use std::alloc::Global;

fn push_line(out: &mut Vec<u8>, alloc: Global, entry: &Entry) -> Result<(), NoMemory>
    ensures { OnOk result (out.new.items ≡ out.old.items ++ text_of_entry entry.now) }
{
    push_number(out, alloc, u64::from(entry.at.line.0))?;
    push_event(out, alloc, &entry.event)?;
    out.push(b'\n')?;
    Ok(())
}

/// The line of an entry: the number of its line in the script, what happened, and a line feed.
pub fn line(alloc: Global, entry: &Entry) -> Result<Vec<u8>, NoMemory>
    ensures { IfOk result (λ text. text.items ≡ text_of_entry entry.now) }
{
    let mut out = Vec::new(alloc);
    push_line(&mut out, alloc, entry)?;
    Ok(out)
}

/// The lines of entries, in order.
pub fn report_entries(alloc: Global, entries: &[Entry]) -> Result<Vec<u8>, NoMemory>
    ensures { IfOk result (λ text. text.items ≡ flat_map text_of_entry entries.now) }
{
    let mut out = Vec::new(alloc);
    for entry in entries {
        push_line(&mut out, alloc, entry)?;
    }
    Ok(out)
}

/// The report of a history: the lines of its entries, in order.
pub fn report(alloc: Global, history: &History) -> Result<Vec<u8>, NoMemory>
    ensures { IfOk result (λ text. text.items ≡ text_of history.now) }
{
    report_entries(alloc, history.entries.as_slice())
}
