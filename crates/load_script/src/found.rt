//! The summary of a run of the generated script.

ghost use Rattle.std.specs.Prelude.{◌≡◌, ◌≤◌, ◌+◌, ◌^◌, ◌<◌, ◌++◌, reverse, length, IfOk, OnOk};
ghost use Rattle.load_script.specs.Generated.{load_lines};
ghost use Rattle.load_script.specs.Totals.{total_at, place_behind, totals_in, summary_line, summary_text};

use crate::commands::push_number;
use history_facts::same_at;
use history_rules::{Entry, Event};
use nrt_base::{At, LaneNo, LineNo, NoMemory};
use std::alloc::Global;

// The total of the line's newest answer, or 0.
fn total_at(at: At, entries: &[Entry]) -> u32
    ensures { result ≡ total_at at (reverse entries.now) }
{
    let mut total = 0;
    for entry in entries {
        if same_at(entry.at, at) {
            if let Event::Answered { answer, .. } = &entry.event {
                total = answer.total;
            }
        }
    }
    total
}

// How many lines stand before the join.
#[tactic(auto, using(crate::proofs::LoadCounts::line_count))]
fn line_count(n: u32) -> u32
    requires { n ≤ 10000 }
    ensures count { result ≡ length (load_lines n) }
    ensures few { result ≤ 20000 }
{
    n + n / 10 + n / 50 + n / 100 + n / 200
}

// The place so many lines behind the first one behind the join.
fn place_behind(n: u32, k: u32) -> At
    requires few { n ≤ 10000 }
    requires near { k ≤ 5 }
    ensures { result ≡ place_behind n k }
{
    At {
        lane: LaneNo(1),
        line: LineNo(4 + line_count(n) + k),
    }
}

// Puts words, a number and the end of the line at the end.
fn push_line(alloc: Global, out: &mut Vec<u8>, words: &[u8], number: u32) -> Result<(), NoMemory>
    ensures { OnOk result (out.new.items ≡ out.old.items ++ summary_line words.now number) }
{
    out.extend_from_slice(words)?;
    push_number(alloc, out, number)?;
    out.push(b'\n')?;
    Ok(())
}

/// The summary of a run of the script of n documents, which has these entries: how many documents were put, and how many each search found.
pub fn summary(alloc: Global, n: u32, entries: &[Entry]) -> Result<Vec<u8>, NoMemory>
    requires { n ≤ 10000 }
    ensures { IfOk result (λ text. text.items
        ≡ summary_text n (totals_in n (reverse entries.now))) }
{
    let documents = total_at(place_behind(n, 2), entries);
    let one = total_at(place_behind(n, 3), entries);
    let two = total_at(place_behind(n, 4), entries);
    let three = total_at(place_behind(n, 5), entries);
    let mut out = Vec::new(alloc);
    push_line(alloc, &mut out, b"load ", n)?;
    push_line(alloc, &mut out, b"documents ", documents)?;
    push_line(alloc, &mut out, b"a0 ", one)?;
    push_line(alloc, &mut out, b"a0 AND b0 ", two)?;
    push_line(alloc, &mut out, b"\"a1 b1\" ", three)?;
    Ok(out)
}
