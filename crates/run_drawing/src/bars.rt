//! Bars of lines and tickets, and the signs of events.

ghost use Rattle.std.specs.Prelude.{◌≡◌, ◌++◌, ◌+◌, ◌<◌, ◌^◌, Some, OnOk, IfOk};
ghost use Rattle.std.specs.List.{flat_map};
ghost use Rattle.run_drawing.specs.Drawing.{line_title, line_bar, ticket_words, ticket_title, ticket_bar, bar_text, class_of, said_of, ended_bar, sign_text, marks_text};

use crate::bands::push_ended_bands;
use crate::scene::{Kind, OpenBar, Scene, is_over};
use crate::shapes::{push_box, push_escaped, push_line, push_mark, push_with, push_words};
use crate::span::{Page, Span};
use history_rules::{Entry, Event};
use nrt_base::{NoMemory, NodeNo, TicketNo, Version};
use report_text::line;
use run_picture::{node_of_sign, sign};
use std::alloc::Global;

/// What is told of a line.
#[tactic(auto, unfolding(crate::specs::Drawing::line_title))]
fn line_title(alloc: Global, bar: OpenBar, span: Span, said: &[u8]) -> Result<Vec<u8>, NoMemory>
    ensures { IfOk result (λ text. text.items ≡ line_title bar span said.now) }
{
    let mut text = Vec::new(alloc);
    let lane = bar.at.lane.0;
    let line = bar.at.line.0;
    text.extend_from_slice(format!(in alloc; "lane {lane}, line {line}, ")?.as_bytes())?;
    span.push_entries(&mut text, alloc)?;
    text.extend_from_slice(b": ")?;
    text.extend_from_slice(said)?;
    Ok(text)
}

fn push_line_bar(
    out: &mut Vec<u8>,
    alloc: Global,
    bar: OpenBar,
    span: Span,
    class: &[u8],
    said: &[u8],
) -> Result<(), NoMemory>
    ensures { OnOk result (out.new.items ≡ out.old.items ++ line_bar bar span class.now said.now) }
{
    let title = line_title(alloc, bar, span, said)?;
    let mut shapes = Vec::new(alloc);
    let x = span.x().saturating_add(1);
    let y = 6 + 12 * u128::from(bar.at.lane.0);
    push_box(
        &mut shapes,
        alloc,
        class,
        x,
        y,
        span.width().saturating_sub(2),
        9,
    )?;
    push_mark(out, title.as_slice(), shapes.as_slice())
}

/// Puts the name of a ticket at the end.
#[tactic(auto, unfolding(crate::specs::Drawing::ticket_words))]
fn push_ticket(out: &mut Vec<u8>, alloc: Global, bar: OpenBar, t: TicketNo) -> Result<(), NoMemory>
    ensures { OnOk result (out.new.items ≡ out.old.items ++ ticket_words bar t.0) }
{
    push_with(out, alloc, b"ticket ", u128::from(t.0))?;
    push_with(out, alloc, b" of lane ", u128::from(bar.at.lane.0))
}

/// What is told of a ticket.
#[tactic(auto, unfolding(crate::specs::Drawing::ticket_title))]
fn ticket_title(
    alloc: Global,
    bar: OpenBar,
    span: Span,
    t: TicketNo,
    v: Version,
) -> Result<Vec<u8>, NoMemory>
    ensures { IfOk result (λ text. text.items ≡ ticket_title bar span t.0 v.0) }
{
    let mut text = Vec::new(alloc);
    push_ticket(&mut text, alloc, bar, t)?;
    text.extend_from_slice(b", ")?;
    span.push_entries(&mut text, alloc)?;
    push_with(&mut text, alloc, b": version ", u128::from(v.0))?;
    Ok(text)
}

fn push_ticket_bar(
    out: &mut Vec<u8>,
    alloc: Global,
    bar: OpenBar,
    span: Span,
    n: NodeNo,
    t: TicketNo,
    v: Version,
) -> Result<(), NoMemory>
    ensures { OnOk result (out.new.items ≡ out.old.items ++ ticket_bar bar span n.0 t.0 v.0) }
{
    let title = ticket_title(alloc, bar, span, t, v)?;
    let mut shapes = Vec::new(alloc);
    let x = span.x().saturating_add(4);
    let y = span.page.version_line(n, v);
    push_line(
        &mut shapes,
        alloc,
        b"t",
        x,
        y,
        span.width().saturating_sub(8),
    )?;
    push_mark(out, title.as_slice(), shapes.as_slice())
}

/// Puts a line or a ticket up to this place at the end.
pub fn push_bar(
    out: &mut Vec<u8>,
    alloc: Global,
    page: Page,
    right: usize,
    class: &[u8],
    said: &[u8],
    bar: OpenBar,
) -> Result<(), NoMemory>
    ensures { OnOk result (out.new.items
        ≡ out.old.items ++ bar_text page right class.now said.now bar) }
{
    let span = page.span(bar.since, right);
    match bar.kind {
        Kind::Line => push_line_bar(out, alloc, bar, span, class, said),
        Kind::Ticket { n, t, v } => push_ticket_bar(out, alloc, bar, span, n, t, v),
    }
}

/// Puts the lines and tickets that go on at the end.
pub fn push_bars(
    out: &mut Vec<u8>,
    alloc: Global,
    page: Page,
    right: usize,
    class: &[u8],
    said: &[u8],
    bars: &[OpenBar],
) -> Result<(), NoMemory>
    ensures { OnOk result (out.new.items
        ≡ out.old.items ++ flat_map (bar_text page right class.now said.now) bars.now) }
{
    for bar in bars {
        push_bar(out, alloc, page, right, class, said, *bar)?;
    }
    Ok(())
}

fn class_text(event: &Event) -> &'static [u8]
    ensures { result.now ≡ class_of event.now }
{
    match event {
        Event::Refused { .. } => b"k",
        _ => b"l",
    }
}

/// The line of the report, as it stands in a drawing.
fn said_text(alloc: Global, entry: &Entry) -> Result<Vec<u8>, NoMemory>
    ensures { IfOk result (λ text. text.items ≡ said_of entry.now) }
{
    let mut text = Vec::new(alloc);
    let told = line(alloc, entry)?;
    push_escaped(&mut text, told.as_slice())?;
    Ok(text)
}

fn push_ended_bar(
    out: &mut Vec<u8>,
    alloc: Global,
    page: Page,
    entry: &Entry,
    right: usize,
    said: &[u8],
    bar: OpenBar,
) -> Result<(), NoMemory>
    ensures { OnOk result (out.new.items
        ≡ out.old.items ++ ended_bar page entry.now right said.now bar) }
{
    if is_over(entry, &bar) {
        push_bar(out, alloc, page, right, class_text(&entry.event), said, bar)?;
    }
    Ok(())
}

/// Puts the lines and tickets that an entry ends at the end.
pub fn push_ended_bars(
    out: &mut Vec<u8>,
    alloc: Global,
    page: Page,
    entry: &Entry,
    right: usize,
    said: &[u8],
    bars: &[OpenBar],
) -> Result<(), NoMemory>
    ensures { OnOk result (out.new.items
        ≡ out.old.items ++ flat_map (ended_bar page entry.now right said.now) bars.now) }
{
    for bar in bars {
        push_ended_bar(out, alloc, page, entry, right, said, *bar)?;
    }
    Ok(())
}

/// Puts the sign of an event at the end, over the band of its node.
pub fn push_sign(
    out: &mut Vec<u8>,
    alloc: Global,
    page: Page,
    entry: &Entry,
    place: usize,
    said: &[u8],
    node: Option<NodeNo>,
) -> Result<(), NoMemory>
    ensures { OnOk result (out.new.items
        ≡ out.old.items ++ sign_text page entry.now place said.now node) }
{
    match node {
        None => Ok(()),
        Some(n) => push_sign_at(out, alloc, page, entry, place, said, n),
    }
}

fn push_sign_at(
    out: &mut Vec<u8>,
    alloc: Global,
    page: Page,
    entry: &Entry,
    place: usize,
    said: &[u8],
    n: NodeNo,
) -> Result<(), NoMemory>
    ensures { OnOk result (out.new.items
        ≡ out.old.items ++ sign_text page entry.now place said.now (Some n)) }
{
    let mut words = Vec::new(alloc);
    push_escaped(&mut words, sign(&entry.event))?;
    let mut shapes = Vec::new(alloc);
    let x = page.span(place, place).x().saturating_add(5);
    let y = page.floor(n).saturating_sub(47);
    push_words(&mut shapes, alloc, b"s", x, y, words.as_slice())?;
    push_mark(out, said, shapes.as_slice())
}

/// Puts what an entry adds to a page at the end.
pub fn push_marks(
    out: &mut Vec<u8>,
    alloc: Global,
    page: Page,
    entry: &Entry,
    place: usize,
    scene: &Scene,
) -> Result<(), NoMemory>
    requires { place + 1 < 2 ^ 64 }
    ensures { OnOk result (out.new.items ≡ out.old.items
        ++ marks_text page entry.now place scene.now.heads scene.now.bands.items scene.now.bars.items) }
{
    let text = said_text(alloc, entry)?;
    let said = text.as_slice();
    let heads = scene.heads;
    push_ended_bands(
        out,
        alloc,
        page,
        &entry.event,
        heads,
        place,
        scene.bands.as_slice(),
    )?;
    push_ended_bars(
        out,
        alloc,
        page,
        entry,
        place + 1,
        said,
        scene.bars.as_slice(),
    )?;
    let node = node_of_sign(&entry.event, heads.primary);
    push_sign(out, alloc, page, entry, place, said, node)
}
