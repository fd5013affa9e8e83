//! The whole drawing.

ghost use Rattle.std.specs.Prelude.{◌≡◌, ◌++◌, reverse, length, OnOk, IfOk};
ghost use Rattle.std.specs.List.{flat_map, range_with_len};
ghost use Rattle.run_drawing.specs.Drawing.{lanes_of, pages_of, page_at, open_text, drawing_of};

use crate::pages::{pages_height, push_page};
use crate::scene::Scene;
use crate::shapes::push_with;
use crate::style::push_style;
use history_rules::Entry;
use nrt_base::NoMemory;
use std::alloc::Global;

/// How many entries a page has.
const PAGE: usize = 100;

/// The highest lane of entries, or 1.
fn lanes(entries: &[Entry]) -> u8
    ensures { result ≡ lanes_of (reverse entries.now) }
{
    let mut lanes = 1;
    for entry in entries {
        lanes = lanes.max(entry.at.lane.0);
    }
    lanes
}

/// How many pages so many entries have.
fn pages(count: usize) -> usize
    ensures { result ≡ pages_of count }
{
    count.div_ceil(PAGE)
}

/// Puts every page at the end.
fn push_pages(
    out: &mut Vec<u8>,
    alloc: Global,
    lanes: u8,
    nodes: u8,
    entries: &[Entry],
) -> Result<(), NoMemory>
    requires { lanes ≡ lanes_of (reverse entries.now) }
    ensures { OnOk result (out.new.items ≡ out.old.items
        ++ flat_map (page_at nodes entries.now) (range_with_len 0 (pages_of (length entries.now)))) }
{
    let mut scene = Scene::first(alloc, nodes)?;
    let mut start = 0;
    for p in 0..pages(entries.len()) {
        let end = entries.len().min(start + PAGE);
        push_page(out, alloc, lanes, nodes, p, start, end, &mut scene, entries)?;
        start = end;
    }
    Ok(())
}

fn push_open(out: &mut Vec<u8>, alloc: Global, height: u128) -> Result<(), NoMemory>
    ensures { OnOk result (out.new.items ≡ out.old.items ++ open_text height) }
{
    push_with(
        out,
        alloc,
        b"<svg xmlns='http://www.w3.org/2000/svg' width='1180' height='",
        height,
    )?;
    push_with(out, alloc, b"' viewBox='0 0 1180 ", height)?;
    out.extend_from_slice(b"'>\n")?;
    Ok(())
}

/// The drawing of a run of so many nodes.
pub fn drawing(alloc: Global, nodes: u8, entries: &[Entry]) -> Result<Vec<u8>, NoMemory>
    ensures { IfOk result (λ text. text.items ≡ drawing_of nodes entries.now) }
{
    let lanes = lanes(entries);
    let height = pages_height(lanes, nodes, pages(entries.len()));
    let mut out = Vec::new(alloc);
    push_open(&mut out, alloc, height)?;
    push_style(&mut out)?;
    push_pages(&mut out, alloc, lanes, nodes, entries)?;
    out.extend_from_slice(b"</svg>\n")?;
    Ok(out)
}
