//! Pages: their ground, the marks of their entries, and what their ends show.

ghost use Rattle.std.specs.Prelude.{◌≡◌, ◌≤◌, ◌<◌, ◌+◌, ◌++◌, ◌^◌, ℕ, codes, length, OnOk};
ghost use Rattle.std.specs.List.{flat_map, range_with_len};
ghost use Rattle.history_rules.specs.Nodes.{Past, newest_version};
ghost use Rattle.run_picture.specs.Views.{heads_of};
ghost use Rattle.run_drawing.specs.Scenes.{ShowsScene};
ghost use Rattle.run_drawing.specs.Shapes.{word_text};
ghost use Rattle.run_drawing.specs.Drawing.{entries_text, span_from, rest_text, lane_label, node_label, page_height, pages_height, page_head, page_of, first_of, IsEntryDrawn, AreDrawn, IsPageDrawn};

use crate::bands::push_bands;
use crate::bars::{push_bars, push_marks};
use crate::scene::Scene;
use crate::shapes::{push_box, push_with, push_words};
use crate::span::Page;
use history_rules::{Entry, Event};
use nrt_base::{NoMemory, NodeNo, Version};
use run_picture::Heads;
use std::alloc::Global;

/// How high a page is.
pub fn page_height(lanes: u8, size: u8) -> u128
    ensures is { result ≡ page_height lanes size }
    ensures low { result ≤ 18420 }
{
    60 + 12 * u128::from(lanes) + 60 * u128::from(size)
}

fn push_lane_label(out: &mut Vec<u8>, alloc: Global, lane: u64) -> Result<(), NoMemory>
    ensures { OnOk result (out.new.items ≡ out.old.items ++ lane_label lane) }
{
    let name = format!(in alloc; "lane {lane}")?;
    push_words(
        out,
        alloc,
        b"q",
        8,
        14 + 12 * u128::from(lane),
        name.as_bytes(),
    )
}

fn push_lane_labels(out: &mut Vec<u8>, alloc: Global, lanes: u8) -> Result<(), NoMemory>
    ensures { OnOk result (out.new.items
        ≡ out.old.items ++ flat_map lane_label (range_with_len 1 lanes)) }
{
    for next in 0..lanes {
        push_lane_label(out, alloc, u64::from(next) + 1)?;
    }
    Ok(())
}

fn push_node_label(
    out: &mut Vec<u8>,
    alloc: Global,
    page: Page,
    node: NodeNo,
) -> Result<(), NoMemory>
    ensures { OnOk result (out.new.items ≡ out.old.items ++ node_label page node.0) }
{
    let floor = page.floor(node);
    push_box(out, alloc, b"w", 64, floor.saturating_sub(44), 1100, 44)?;
    let n = node.0;
    let name = format!(in alloc; "node {n}")?;
    push_words(
        out,
        alloc,
        b"",
        8,
        floor.saturating_sub(18),
        name.as_bytes(),
    )
}

fn push_node_labels(out: &mut Vec<u8>, alloc: Global, page: Page, size: u8) -> Result<(), NoMemory>
    ensures { OnOk result (out.new.items
        ≡ out.old.items ++ flat_map (node_label page) (range_with_len 1 size)) }
{
    for next in 0..size {
        prove!(next < size);
        push_node_label(out, alloc, page, NodeNo(next + 1))?;
    }
    Ok(())
}

/// Where so many pages end, from the top of the drawing.
pub fn pages_height(lanes: u8, size: u8, pages: usize) -> u128
    ensures { result ≡ pages_height lanes size pages }
{
    70 + (pages as u128) * page_height(lanes, size)
}

/// Puts which entries a page has at the end.
fn push_range(out: &mut Vec<u8>, alloc: Global, page: Page, end: usize) -> Result<(), NoMemory>
    ensures { OnOk result (out.new.items
        ≡ out.old.items ++ word_text (codes "q") 64 12 (entries_text (span_from page 0 end))) }
{
    let mut words = Vec::new(alloc);
    page.span(0, end).push_entries(&mut words, alloc)?;
    push_words(out, alloc, b"q", 64, 12, words.as_slice())
}

fn push_page_head(
    out: &mut Vec<u8>,
    alloc: Global,
    page: Page,
    size: u8,
    p: usize,
    end: usize,
) -> Result<(), NoMemory>
    ensures { OnOk result (out.new.items ≡ out.old.items ++ page_head page size p end) }
{
    let top = pages_height(page.lanes, size, p);
    push_with(out, alloc, b"<g transform='translate(0 ", top)?;
    out.extend_from_slice(b")'>\n")?;
    push_range(out, alloc, page, end)?;
    push_lane_labels(out, alloc, page.lanes)?;
    push_node_labels(out, alloc, page, size)?;
    out.push(b'\n')?;
    Ok(())
}

/// Draws an entry, and lets it happen.
fn push_entry(
    out: &mut Vec<u8>,
    alloc: Global,
    page: Page,
    place: usize,
    scene: &mut Scene,
    entry: &Entry,
) -> Result<(), NoMemory>
    requires { place + 1 < 2 ^ 64 }
    ensures { OnOk result ((size : ℕ) (past : Past) → length past ≡ place
        → ShowsScene size past scene.old
        → IsEntryDrawn page size entry.now past out.old.items out.new.items scene.new) }
{
    scene.begin(entry, place)?;
    push_marks(out, alloc, page, entry, place, scene)?;
    scene.step(entry, place);
    Ok(())
}

/// Draws the entries of a page, from its start to its end, one after the other.
fn push_entries(
    out: &mut Vec<u8>,
    alloc: Global,
    page: Page,
    end: usize,
    scene: &mut Scene,
    entries: &[Entry],
) -> Result<(), NoMemory>
    requires order { page.start ≤ end }
    requires within { end ≤ length entries.now }
    ensures { OnOk result ((size : ℕ) → ShowsScene size (first_of entries.now page.start) scene.old
        → AreDrawn page size (first_of entries.now end) out.old.items out.new.items scene.new) }
{
    for i in page.start..end {
        push_entry(out, alloc, page, i, scene, &entries[i])?;
    }
    Ok(())
}

/// Puts what the end of a page shows at the end.
fn push_rest(
    out: &mut Vec<u8>,
    alloc: Global,
    page: Page,
    place: usize,
    scene: &Scene,
) -> Result<(), NoMemory>
    ensures { OnOk result (out.new.items ≡ out.old.items
        ++ rest_text page place scene.now.heads scene.now.bands.items scene.now.bars.items) }
{
    push_bands(out, alloc, page, scene.heads, place, scene.bands.as_slice())?;
    push_bars(
        out,
        alloc,
        page,
        place,
        b"l",
        b"goes on",
        scene.bars.as_slice(),
    )
}

/// The newest version at a place, where this is the newest at an earlier one.
fn newest_at(newest: Version, entries: &[Entry], start: usize, end: usize) -> Version
    requires order { start ≤ end }
    requires within { end ≤ length entries.now }
    requires newest { newest.0 ≡ newest_version (first_of entries.now start) }
    ensures { result.0 ≡ newest_version (first_of entries.now end) }
{
    let mut last = newest.0;
    for i in start..end {
        if let Event::Published { v, .. } | Event::Promoted { v, .. } = &entries[i].event {
            last = last.max(v.0);
        }
    }
    Version(last)
}

/// The page from a place to a later one.
fn page_from(lanes: u8, heads: Heads, entries: &[Entry], start: usize, end: usize) -> Page
    requires order { start ≤ end }
    requires within { end ≤ length entries.now }
    requires heads { heads ≡ heads_of (first_of entries.now start) }
    ensures { result ≡ page_of lanes (first_of entries.now start) (first_of entries.now end) }
{
    let top = newest_at(heads.newest, entries, start, end);
    Page {
        lanes,
        start,
        low: heads.newest.0.saturating_sub(8),
        top: top.0,
    }
}

/// Draws the p-th page, from a place to a later one, and lets its entries happen.
pub fn push_page(
    out: &mut Vec<u8>,
    alloc: Global,
    lanes: u8,
    size: u8,
    p: usize,
    start: usize,
    end: usize,
    scene: &mut Scene,
    entries: &[Entry],
) -> Result<(), NoMemory>
    requires order { start ≤ end }
    requires within { end ≤ length entries.now }
    requires shows { ShowsScene size (first_of entries.now start) scene.old }
    ensures { OnOk result (IsPageDrawn lanes size p (first_of entries.now start)
        (first_of entries.now end) out.old.items out.new.items scene.new) }
{
    let page = page_from(lanes, scene.heads, entries, start, end);
    push_page_head(out, alloc, page, size, p, end)?;
    push_entries(out, alloc, page, end, scene, entries)?;
    push_rest(out, alloc, page, end, scene)?;
    out.extend_from_slice(b"</g>\n")?;
    Ok(())
}
