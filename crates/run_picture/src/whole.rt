//! The whole picture.

ghost use Rattle.std.specs.Prelude.{◌≡◌, ◌≤◌, length, IfOk};
ghost use Rattle.std.specs.Fmt.{decimal};
ghost use Rattle.run_picture.specs.Picture.{column_width, picture_of};

use crate::rows::{push_head, push_rows};
use history_facts::newest_version;
use history_rules::Entry;
use nrt_base::NoMemory;
use std::alloc::Global;

/// How many digits a number has.
#[tactic(auto, using(crate::proofs::ViewLemmas::few_digits))]
fn digits(alloc: Global, number: u64) -> Result<usize, NoMemory>
    ensures count { IfOk result (λ count. count ≡ length (decimal number)) }
    ensures few { IfOk result (λ count. count ≤ 20) }
{
    Ok(format!(in alloc; "{number}")?.len())
}

/// How wide the column of a node is, where this is the newest version.
fn column_width(alloc: Global, newest: u64) -> Result<usize, NoMemory>
    ensures { IfOk result (λ width. width ≡ column_width newest) }
{
    let digits = digits(alloc, newest)?;
    Ok((4 + 2 * digits).max(7))
}

/// The picture of a run of so many nodes: a row for each entry, with what the entries up to it show of each node.
pub fn picture(alloc: Global, nodes: u8, entries: &[Entry]) -> Result<Vec<u8>, NoMemory>
    ensures { IfOk result (λ text. text.items ≡ picture_of nodes entries.now) }
{
    let width = column_width(alloc, newest_version(entries))?;
    let mut out = Vec::new(alloc);
    push_head(&mut out, alloc, width, nodes)?;
    push_rows(&mut out, alloc, width, nodes, entries)?;
    Ok(out)
}
