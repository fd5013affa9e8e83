//! What is shown of a place in a run, stepped by one entry after the other.

ghost use Rattle.std.specs.Prelude.{◌≡◌, ◌∷◌, [], ℕ, map, IfOk};
ghost use Rattle.history_rules.specs.Nodes.{Past};
ghost use Rattle.run_picture.specs.Views.{heads_of, view_of, views_of, ShowsPlace, heads_by, view_by};

use history_facts::is_at;
use history_rules::{Entry, Event};
use nrt_base::{Gen, NoMemory, NodeNo, Version};
use std::alloc::Global;

/// The running primary, and the newest point that was published or promoted.
#[derive(Clone, Copy, Debug, PartialEq, Eq)]
pub struct Heads {
    pub primary: Option<NodeNo>,
    pub generation: Gen,
    pub newest: Version,
}

impl Heads {
    /// Before any entry.
    pub fn first() -> Self
        ensures { result ≡ heads_of [] }
    {
        Heads {
            primary: Some(NodeNo(1)),
            generation: Gen(1),
            newest: Version(1),
        }
    }

    /// After one more event.
    pub fn after(self, event: &Event) -> Self
        ensures { result ≡ heads_by event.now self }
    {
        match event {
            Event::Crashed { n } => {
                if is_at(self.primary, *n) {
                    Heads {
                        primary: None,
                        ..self
                    }
                } else {
                    self
                }
            }
            Event::Promoted {
                n,
                generation,
                v,
                ..
            } => Heads {
                primary: Some(*n),
                generation: *generation,
                newest: Version(self.newest.0.max(v.0)),
            },
            Event::Published { v, .. } => Heads {
                newest: Version(self.newest.0.max(v.0)),
                ..self
            },
            _ => self,
        }
    }
}

/// Whether a node runs, and the version that it searches.
#[derive(Clone, Copy, Debug, PartialEq, Eq)]
pub struct NodeView {
    pub node: NodeNo,
    pub running: bool,
    pub version: Version,
}

impl NodeView {
    /// Before any entry.
    pub fn first(node: NodeNo) -> Self
        ensures { result ≡ view_of [] node.0 }
    {
        NodeView {
            node,
            running: true,
            version: Version(1),
        }
    }

    /// After one more event, where this was the primary.
    pub fn after(self, event: &Event, primary: Option<NodeNo>) -> Self
        ensures { result ≡ view_by event.now primary self }
    {
        match event {
            Event::Crashed { n } if n.0 == self.node.0 => NodeView {
                running: false,
                ..self
            },
            Event::Reopened { n, v } if n.0 == self.node.0 => NodeView {
                running: true,
                version: *v,
                ..self
            },
            Event::Switched { n, v } | Event::Promoted { n, v, .. } if n.0 == self.node.0 => {
                NodeView {
                    version: *v,
                    ..self
                }
            }
            Event::Published { v, .. } if is_at(primary, self.node) => NodeView {
                version: *v,
                ..self
            },
            _ => self,
        }
    }
}

fn first_views(alloc: Global, size: u8) -> Result<Vec<NodeView>, NoMemory>
    ensures { IfOk result (λ views. views.items ≡ views_of size []) }
{
    let mut views = Vec::new(alloc);
    for next in 0..size {
        prove!(next < size);
        views.push(NodeView::first(NodeNo(next + 1)))?;
    }
    Ok(views)
}

fn step_views(views: &mut Vec<NodeView>, event: &Event, primary: Option<NodeNo>)
    ensures { views.new.items ≡ map (view_by event.now primary) views.old.items }
{
    for i in 0..views.len() {
        views[i] = views[i].after(event, primary);
    }
}

/// What is shown of a place: of the whole run, and of each node, the first node in front.
#[derive(Debug, Drop)]
pub struct PlaceView {
    pub heads: Heads,
    pub nodes: Vec<NodeView>,
}

impl PlaceView {
    /// Before any entry.
    pub fn first(alloc: Global, size: u8) -> Result<Self, NoMemory>
        ensures { IfOk result (ShowsPlace size []) }
    {
        let nodes = first_views(alloc, size)?;
        let heads = Heads::first();
        Ok(PlaceView { heads, nodes })
    }

    /// One entry more.
    pub fn step(&mut self, entry: &Entry)
        ensures { (size : ℕ) (past : Past) → ShowsPlace size past self.old
            → ShowsPlace size (entry.now ∷ past) self.new }
    {
        step_views(&mut self.nodes, &entry.event, self.heads.primary);
        self.heads = self.heads.after(&entry.event);
    }
}
