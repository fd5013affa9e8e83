//! The rows of entries, and what stands over them.

ghost use Rattle.std.specs.Prelude.{◌≡◌, ◌++◌, OnOk, reverse};
ghost use Rattle.std.specs.List.{flat_map, range_with_len};
ghost use Rattle.run_picture.specs.Picture.{cell_text, row_text, rows_shown, heading_text, legend_text, columns_text, head_text};

use crate::columns::{newest, push_cell, push_left, push_number, push_right};
use crate::shown::{Heads, NodeView, PlaceView};
use history_rules::{Entry, Event};
use nrt_base::NoMemory;
use report_text::line;
use std::alloc::Global;

/// Puts the columns of nodes at the end.
fn push_cells(
    out: &mut Vec<u8>,
    alloc: Global,
    width: usize,
    event: &Event,
    heads: Heads,
    views: &[NodeView],
) -> Result<(), NoMemory>
    ensures { OnOk result (out.new.items
        ≡ out.old.items ++ flat_map (cell_text width event.now heads) views.now) }
{
    for view in views {
        push_cell(out, alloc, width, event, heads, *view)?;
    }
    Ok(())
}

/// Puts the row of an entry at the end.
fn push_row(
    out: &mut Vec<u8>,
    alloc: Global,
    width: usize,
    place: usize,
    entry: &Entry,
    heads: Heads,
    views: &[NodeView],
) -> Result<(), NoMemory>
    ensures { OnOk result (out.new.items
        ≡ out.old.items ++ row_text width place entry.now heads views.now) }
{
    push_right(out, 6, format!(in alloc; "{place}")?.as_bytes())?;
    push_left(out, 8, newest(alloc, heads)?.as_slice())?;
    push_cells(out, alloc, width, &entry.event, heads, views)?;
    let lane = entry.at.lane.0;
    push_right(out, 4, format!(in alloc; "{lane}")?.as_bytes())?;
    out.extend_from_slice(line(alloc, entry)?.as_slice())
}

/// Puts the rows of entries at the end, of so many nodes.
pub fn push_rows(
    out: &mut Vec<u8>,
    alloc: Global,
    width: usize,
    size: u8,
    entries: &[Entry],
) -> Result<(), NoMemory>
    ensures { OnOk result (out.new.items
        ≡ out.old.items ++ rows_shown width size (reverse entries.now)) }
{
    let mut view = PlaceView::first(alloc, size)?;
    let mut place = 0;
    for entry in entries {
        view.step(entry);
        place += 1;
        push_row(
            out,
            alloc,
            width,
            place,
            entry,
            view.heads,
            view.nodes.as_slice(),
        )?;
    }
    Ok(())
}

/// Puts what stands over the column of a node at the end.
fn push_heading(out: &mut Vec<u8>, alloc: Global, width: usize, n: u64) -> Result<(), NoMemory>
    ensures { OnOk result (out.new.items ≡ out.old.items ++ heading_text width n) }
{
    let mut text = Vec::new(alloc);
    text.extend_from_slice(b"node ")?;
    push_number(&mut text, alloc, n)?;
    push_left(out, width, text.as_slice())
}

fn push_headings(out: &mut Vec<u8>, alloc: Global, width: usize, size: u8) -> Result<(), NoMemory>
    ensures { OnOk result (out.new.items
        ≡ out.old.items ++ flat_map (heading_text width) (range_with_len 1 size)) }
{
    for next in 0..size {
        push_heading(out, alloc, width, u64::from(next) + 1)?;
    }
    Ok(())
}

fn push_legend(out: &mut Vec<u8>) -> Result<(), NoMemory>
    ensures { OnOk result (out.new.items ≡ out.old.items ++ legend_text) }
{
    out.extend_from_slice(
        b"P primary, r replica, - down; the version that the node searches; -2: the newest is 2 further\n",
    )?;
    out.extend_from_slice(
        b"* published or promoted  < copy begins  + switched  ? search begins  ! answered  ( ticket opened\n",
    )?;
    out.extend_from_slice(
        b") closed  ~ commit begins  = committed  x crashed  ^ reopened  % fault met\n\n",
    )
}

fn push_columns(out: &mut Vec<u8>, alloc: Global, width: usize, size: u8) -> Result<(), NoMemory>
    ensures { OnOk result (out.new.items ≡ out.old.items ++ columns_text width size) }
{
    out.extend_from_slice(b" entry newest   ")?;
    push_headings(out, alloc, width, size)?;
    out.extend_from_slice(b"lane report\n")
}

/// Puts what stands over the rows at the end.
pub fn push_head(out: &mut Vec<u8>, alloc: Global, width: usize, size: u8) -> Result<(), NoMemory>
    ensures { OnOk result (out.new.items ≡ out.old.items ++ head_text width size) }
{
    push_legend(out)?;
    push_columns(out, alloc, width, size)?;
    Ok(())
}
