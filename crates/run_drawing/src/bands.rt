//! The band of a node: what it was over a span of entries.

ghost use Rattle.std.specs.Prelude.{◌≡◌, ◌++◌, ◌+◌, nat_lt, OnOk, IfOk};
ghost use Rattle.std.specs.List.{flat_map};
ghost use Rattle.run_drawing.specs.Drawing.{role_words, standing_words, colour_text, area_text, step_text, label_text, up_text, down_text, title_text, shapes_text, band_text, ended_band};

use crate::scene::{Band, changes_node};
use crate::shapes::{push_box, push_line, push_mark, push_words};
use crate::span::{Page, Span};
use history_facts::is_at;
use history_rules::Event;
use nrt_base::NoMemory;
use run_picture::{Heads, NodeView, push_state};
use std::alloc::Global;

fn push_role(out: &mut Vec<u8>, alloc: Global, heads: Heads, view: NodeView) -> Result<(), NoMemory>
    ensures { OnOk result (out.new.items ≡ out.old.items ++ role_words heads view) }
{
    if is_at(heads.primary, view.node) {
        let generation = heads.generation.0;
        out.extend_from_slice(format!(in alloc; "primary of generation {generation}")?.as_bytes())
    } else {
        out.extend_from_slice(b"replica")
    }
}

fn push_standing(
    out: &mut Vec<u8>,
    alloc: Global,
    heads: Heads,
    view: NodeView,
) -> Result<(), NoMemory>
    ensures { OnOk result (out.new.items ≡ out.old.items ++ standing_words heads view) }
{
    if !view.running {
        return out.extend_from_slice(b"down");
    }
    push_role(out, alloc, heads, view)?;
    let version = view.version.0;
    let newest = heads.newest.0;
    out.extend_from_slice(format!(in alloc; ", version {version}, newest {newest}")?.as_bytes())
}

/// A class of shapes, and the colour of the generation behind it.
fn coloured(alloc: Global, class: &[u8], heads: Heads) -> Result<Vec<u8>, NoMemory>
    ensures { IfOk result (λ text. text.items ≡ class.now ++ colour_text heads) }
{
    let mut text = Vec::new(alloc);
    text.extend_from_slice(class)?;
    let colour = heads.generation.0 % 6;
    text.extend_from_slice(format!(in alloc; " g{colour}")?.as_bytes())?;
    Ok(text)
}

/// Puts a box and the line above it at the end.
#[tactic(auto, unfolding(crate::specs::Drawing::area_text))]
fn push_area(
    out: &mut Vec<u8>,
    alloc: Global,
    area: &[u8],
    edge: &[u8],
    span: Span,
    y: u128,
    floor: u128,
) -> Result<(), NoMemory>
    ensures { OnOk result (out.new.items
        ≡ out.old.items ++ area_text area.now edge.now span y floor) }
{
    push_box(
        out,
        alloc,
        area,
        span.x(),
        y,
        span.width(),
        floor.saturating_sub(y),
    )?;
    push_line(out, alloc, edge, span.x(), y, span.width())
}

#[tactic(auto, unfolding(crate::specs::Drawing::step_text))]
fn push_step(
    out: &mut Vec<u8>,
    alloc: Global,
    heads: Heads,
    view: NodeView,
    span: Span,
    y: u128,
    floor: u128,
) -> Result<(), NoMemory>
    ensures { OnOk result (out.new.items
        ≡ out.old.items ++ step_text heads view span y floor) }
{
    if is_at(heads.primary, view.node) {
        let area = coloured(alloc, b"p", heads)?;
        let edge = coloured(alloc, b"f", heads)?;
        push_area(out, alloc, area.as_slice(), edge.as_slice(), span, y, floor)
    } else {
        push_area(out, alloc, b"r", b"e", span, y, floor)
    }
}

/// Whether a span has more than two entries.
fn is_wide(span: Span) -> bool
    ensures { result ≡ nat_lt (span.left + 2) span.right }
{
    span.left as u128 + 2 < span.right as u128
}

#[tactic(auto, unfolding(crate::specs::Drawing::label_text))]
fn push_label(
    out: &mut Vec<u8>,
    alloc: Global,
    heads: Heads,
    view: NodeView,
    span: Span,
    floor: u128,
) -> Result<(), NoMemory>
    ensures { OnOk result (out.new.items ≡ out.old.items ++ label_text heads view span floor) }
{
    if !is_wide(span) {
        return Ok(());
    }
    let mut words = Vec::new(alloc);
    push_state(&mut words, alloc, heads, view)?;
    let x = span.x().saturating_add(2);
    push_words(
        out,
        alloc,
        b"",
        x,
        floor.saturating_sub(3),
        words.as_slice(),
    )
}

#[tactic(auto, unfolding(crate::specs::Drawing::up_text))]
fn push_up(
    out: &mut Vec<u8>,
    alloc: Global,
    heads: Heads,
    view: NodeView,
    span: Span,
) -> Result<(), NoMemory>
    ensures { OnOk result (out.new.items ≡ out.old.items ++ up_text heads view span) }
{
    let page = span.page;
    let floor = page.floor(view.node);
    let y = page.version_line(view.node, view.version);
    push_step(out, alloc, heads, view, span, y, floor)?;
    let newest = page.version_line(view.node, heads.newest).saturating_sub(4);
    push_line(out, alloc, b"n", span.x(), newest, span.width())?;
    push_label(out, alloc, heads, view, span, floor)
}

#[tactic(auto, unfolding(crate::specs::Drawing::down_text))]
fn push_down(out: &mut Vec<u8>, alloc: Global, view: NodeView, span: Span) -> Result<(), NoMemory>
    ensures { OnOk result (out.new.items ≡ out.old.items ++ down_text view span) }
{
    let y = span.page.floor(view.node).saturating_sub(12);
    push_box(out, alloc, b"d", span.x(), y, span.width(), 12)
}

/// What is told of a node over a span.
#[tactic(auto, unfolding(crate::specs::Drawing::title_text))]
fn title_of(alloc: Global, heads: Heads, view: NodeView, span: Span) -> Result<Vec<u8>, NoMemory>
    ensures { IfOk result (λ text. text.items ≡ title_text heads view span) }
{
    let mut text = Vec::new(alloc);
    let node = view.node.0;
    text.extend_from_slice(format!(in alloc; "node {node}, ")?.as_bytes())?;
    span.push_entries(&mut text, alloc)?;
    text.extend_from_slice(b": ")?;
    push_standing(&mut text, alloc, heads, view)?;
    Ok(text)
}

/// The shapes of a node over a span.
#[tactic(auto, unfolding(crate::specs::Drawing::shapes_text))]
fn shapes_of(alloc: Global, heads: Heads, view: NodeView, span: Span) -> Result<Vec<u8>, NoMemory>
    ensures { IfOk result (λ text. text.items ≡ shapes_text heads view span) }
{
    let mut text = Vec::new(alloc);
    if view.running {
        push_up(&mut text, alloc, heads, view, span)?;
    } else {
        push_down(&mut text, alloc, view, span)?;
    }
    Ok(text)
}

/// Puts a node as it is up to this place at the end.
pub fn push_band(
    out: &mut Vec<u8>,
    alloc: Global,
    page: Page,
    heads: Heads,
    place: usize,
    band: Band,
) -> Result<(), NoMemory>
    ensures { OnOk result (out.new.items ≡ out.old.items ++ band_text page heads place band) }
{
    let span = page.span(band.since, place);
    let title = title_of(alloc, heads, band.view, span)?;
    let shapes = shapes_of(alloc, heads, band.view, span)?;
    push_mark(out, title.as_slice(), shapes.as_slice())
}

/// Puts the nodes as they are up to this place at the end.
pub fn push_bands(
    out: &mut Vec<u8>,
    alloc: Global,
    page: Page,
    heads: Heads,
    place: usize,
    bands: &[Band],
) -> Result<(), NoMemory>
    ensures { OnOk result (out.new.items
        ≡ out.old.items ++ flat_map (band_text page heads place) bands.now) }
{
    for band in bands {
        push_band(out, alloc, page, heads, place, *band)?;
    }
    Ok(())
}

fn push_ended_band(
    out: &mut Vec<u8>,
    alloc: Global,
    page: Page,
    event: &Event,
    heads: Heads,
    place: usize,
    band: Band,
) -> Result<(), NoMemory>
    ensures { OnOk result (out.new.items
        ≡ out.old.items ++ ended_band page event.now heads place band) }
{
    if changes_node(event, heads.primary, band.view.node) && page.start.max(band.since) < place {
        push_band(out, alloc, page, heads, place, band)?;
    }
    Ok(())
}

/// Puts the nodes that an event changes at the end, as they were.
pub fn push_ended_bands(
    out: &mut Vec<u8>,
    alloc: Global,
    page: Page,
    event: &Event,
    heads: Heads,
    place: usize,
    bands: &[Band],
) -> Result<(), NoMemory>
    ensures { OnOk result (out.new.items
        ≡ out.old.items ++ flat_map (ended_band page event.now heads place) bands.now) }
{
    for band in bands {
        push_ended_band(out, alloc, page, event, heads, place, *band)?;
    }
    Ok(())
}
