//! What a drawing remembers of a run, stepped by one entry after the other.

ghost use Rattle.std.specs.Prelude.{◌≡◌, [], map, not, OnOk, IfOk};
ghost use Rattle.std.specs.List.{filter, list_any};
ghost use Rattle.history_rules.specs.Lines.{is_reply};
ghost use Rattle.run_drawing.specs.Scenes.{changes_node, band_of, bands_of, is_line_of, line_begun, ticket_begun, ends_ticket, is_over, ShowsScene, AreBarsBegun, IsStepped, band_by};

use history_facts::{is_at, is_start, same_at};
use history_rules::{Entry, Event};
use nrt_base::{At, NoMemory, NodeNo, TicketNo, Version};
use run_picture::{Heads, NodeView};
use std::alloc::Global;

/// What is shown of a node, and since which place.
#[derive(Clone, Copy, Debug, PartialEq, Eq)]
pub struct Band {
    pub view: NodeView,
    pub since: usize,
}

/// What a bar is drawn for.
#[derive(Clone, Copy, Debug, PartialEq, Eq)]
pub enum Kind {
    /// A line of the script, from its first entry to its reply.
    Line,
    /// A ticket at a version of a node.
    Ticket { n: NodeNo, t: TicketNo, v: Version },
}

/// A line, or a ticket that a line opened, and the place since which it is open.
#[derive(Clone, Copy, Debug, PartialEq, Eq)]
pub struct OpenBar {
    pub at: At,
    pub kind: Kind,
    pub since: usize,
}

/// Whether an event changes what is shown of a node, where this was the primary.
pub fn changes_node(event: &Event, primary: Option<NodeNo>, n: NodeNo) -> bool
    ensures { result ≡ changes_node event.now primary n.0 }
{
    match event {
        Event::Published { .. } | Event::Promoted { .. } => true,
        Event::Crashed { n: m } => m.0 == n.0 || is_at(primary, *m),
        Event::Reopened { n: m, .. } | Event::Switched { n: m, .. } => m.0 == n.0,
        _ => false,
    }
}

impl Band {
    /// Before any entry.
    fn first(node: NodeNo) -> Self
        ensures { result ≡ band_of [] node.0 }
    {
        Band {
            view: NodeView::first(node),
            since: 0,
        }
    }

    /// After one more event, at this place, where this was the primary.
    fn after(self, event: &Event, primary: Option<NodeNo>, place: usize) -> Self
        ensures { result ≡ band_by event.now primary place self }
    {
        let since = if changes_node(event, primary, self.view.node) {
            place
        } else {
            self.since
        };
        Band {
            view: self.view.after(event, primary),
            since,
        }
    }
}

fn first_bands(alloc: Global, size: u8) -> Result<Vec<Band>, NoMemory>
    ensures { IfOk result (λ bands. bands.items ≡ bands_of size []) }
{
    let mut bands = Vec::new(alloc);
    for next in 0..size {
        prove!(next < size);
        bands.push(Band::first(NodeNo(next + 1)))?;
    }
    Ok(bands)
}

fn step_bands(bands: &mut Vec<Band>, event: &Event, primary: Option<NodeNo>, place: usize)
    ensures { bands.new.items ≡ map (band_by event.now primary place) bands.old.items }
{
    for i in 0..bands.len() {
        bands[i] = bands[i].after(event, primary, place);
    }
}

fn is_line_of(at: At, bar: &OpenBar) -> bool
    ensures { result ≡ is_line_of at bar.now }
{
    match bar.kind {
        Kind::Line => same_at(bar.at, at),
        Kind::Ticket { .. } => false,
    }
}

fn has_line(at: At, bars: &[OpenBar]) -> bool
    ensures { result ≡ list_any (is_line_of at) bars.now }
{
    bars.iter().any(|bar| is_line_of(at, bar))
}

/// Whether an event answers its line.
fn is_reply(event: &Event) -> bool
    ensures { result ≡ is_reply event.now }
{
    match event {
        Event::Publishing
        | Event::Copying { .. }
        | Event::Switched { .. }
        | Event::Settling { .. }
        | Event::Asking { .. }
        | Event::Committing { .. }
        | Event::Fault { .. } => false,
        Event::Opened { t, .. } => t.0 != 0,
        Event::Accepted { .. }
        | Event::Published { .. }
        | Event::Copied { .. }
        | Event::Settled { .. }
        | Event::Answered { .. }
        | Event::Closed { .. }
        | Event::Committed { .. }
        | Event::Crashed { .. }
        | Event::Reopened { .. }
        | Event::Promoted { .. }
        | Event::Merging { .. }
        | Event::Drained { .. }
        | Event::Files { .. }
        | Event::Planned { .. }
        | Event::Refused { .. } => true,
    }
}

/// Opens the bar of a ticket.
fn begin_ticket(bars: &mut Vec<OpenBar>, entry: &Entry, place: usize) -> Result<(), NoMemory>
    ensures { OnOk result (bars.new.items ≡ ticket_begun entry.now place bars.old.items) }
{
    match &entry.event {
        Event::Opened { n, t, v } => {
            if t.0 != 0 && bars.len() < 32 {
                bars.push(OpenBar {
                    at: entry.at,
                    kind: Kind::Ticket {
                        n: *n,
                        t: *t,
                        v: *v,
                    },
                    since: place,
                })?;
            }
            Ok(())
        }
        _ => Ok(()),
    }
}

/// Opens the bar of an entry's line, unless it is open.
fn begin_line(bars: &mut Vec<OpenBar>, entry: &Entry, place: usize) -> Result<(), NoMemory>
    ensures { OnOk result (bars.new.items ≡ line_begun entry.now place bars.old.items) }
{
    if (is_start(&entry.event) || is_reply(&entry.event)) && !has_line(entry.at, bars.as_slice()) {
        bars.push(OpenBar {
            at: entry.at,
            kind: Kind::Line,
            since: place,
        })?;
    }
    Ok(())
}

fn ends_ticket(event: &Event, own: bool, n: NodeNo, t: TicketNo) -> bool
    ensures { result ≡ ends_ticket event.now own n t }
{
    match event {
        Event::Closed { t: u, .. } => own && u.0 == t.0,
        Event::Crashed { n: m } => m.0 == n.0,
        _ => false,
    }
}

/// Whether a bar ends with an entry.
pub fn is_over(entry: &Entry, bar: &OpenBar) -> bool
    ensures { result ≡ is_over entry.now bar.now }
{
    match bar.kind {
        Kind::Line => is_reply(&entry.event) && same_at(bar.at, entry.at),
        Kind::Ticket { n, t, .. } => {
            ends_ticket(&entry.event, bar.at.lane.0 == entry.at.lane.0, n, t)
        }
    }
}

fn end_bars(bars: &mut Vec<OpenBar>, entry: &Entry)
    ensures { bars.new.items ≡ filter (λ bar. not (is_over entry.now bar)) bars.old.items }
{
    bars.retain(|bar| !is_over(entry, bar));
}

/// What is shown of a place: of the whole run, of each node, and of what is open there.
#[derive(Debug, Drop)]
pub struct Scene {
    pub heads: Heads,
    pub bands: Vec<Band>,
    pub bars: Vec<OpenBar>,
}

impl Scene {
    /// Before any entry.
    pub fn first(alloc: Global, size: u8) -> Result<Self, NoMemory>
        ensures { IfOk result (ShowsScene size []) }
    {
        let bands = first_bands(alloc, size)?;
        let heads = Heads::first();
        let bars = Vec::new(alloc);
        Ok(Scene { heads, bands, bars })
    }

    /// Opens the bars of an entry that is to come.
    pub fn begin(&mut self, entry: &Entry, place: usize) -> Result<(), NoMemory>
        ensures { OnOk result (AreBarsBegun entry.now place self.old self.new) }
    {
        begin_ticket(&mut self.bars, entry, place)?;
        begin_line(&mut self.bars, entry, place)?;
        Ok(())
    }

    /// One entry more, whose bars are open.
    pub fn step(&mut self, entry: &Entry, place: usize)
        ensures { IsStepped entry.now place self.old self.new }
    {
        step_bands(&mut self.bands, &entry.event, self.heads.primary, place);
        end_bars(&mut self.bars, entry);
        self.heads = self.heads.after(&entry.event);
    }
}
