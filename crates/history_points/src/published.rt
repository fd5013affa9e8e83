//! The points of a legal history, each with its documents.

ghost use Rattle.std.specs.Prelude.{◌≡◌, ◌==◌, ◌<◌, ◌+◌, ◌∷◌, ◌++◌, ℕ, [], if◌then◌else◌, map, IfOk, OnOk, Some, None, length, reverse, take};
ghost use Rattle.std.specs.BTreeMap.{IsOrdered};
ghost use Rattle.nrt_base.specs.declared.numbers.At.{At};
ghost use Rattle.documents.specs.Documents.{IsAscending, document_of, key_cmp};
ghost use Rattle.history_rules.specs.Nodes.{Past, is_at};
ghost use Rattle.history_rules.specs.Lines.{same_at};
ghost use Rattle.history_rules.specs.Points.{points_of};
ghost use Rattle.history_rules.specs.Legal.{IsLegal};
ghost use Rattle.history_points.specs.Walks.{KnowsPast, Promotes, IsStarted, begun_at, made_at, searched_by};

use documents::{Texts, change, listed, texts_of};
use history_rules::{Entry, Event, History, Point};
use nrt_base::{At, Doc, Gen, List, NoMemory, NodeNo, Share, Version};
use std::alloc::Global;
use std::collections::BTreeMap;

/// What a publish of each line found written when it started.
type Begun = BTreeMap<(u8, u32), List<Doc>>;

/// The documents of each version.
type Made = BTreeMap<u64, List<Doc>>;

/// The version that each node searches, where it is not the first.
type Searched = BTreeMap<u8, u64>;

fn set_begun(begun: &mut Begun, at: At, docs: List<Doc>) -> Result<(), NoMemory>
    ensures { OnOk result ((a : At) → begun_at begun.new a ≡
        (if same_at at a then docs else begun_at begun.old a)) }
{
    begun.insert((at.lane.0, at.line.0), docs)?;
    Ok(())
}

fn set_made(made: &mut Made, version: Version, docs: List<Doc>) -> Result<(), NoMemory>
    ensures { OnOk result ((v : ℕ) → made_at made.new v ≡
        (if version.0 == v then docs else made_at made.old v)) }
{
    made.insert(version.0, docs)?;
    Ok(())
}

/// Of nobody where there is no node.
fn set_searched(
    searched: &mut Searched,
    node: Option<NodeNo>,
    version: Version,
) -> Result<(), NoMemory>
    ensures { OnOk result ((n : ℕ) → searched_by searched.new n ≡
        (if is_at node n then version.0 else searched_by searched.old n)) }
{
    if let Some(node) = node {
        searched.insert(node.0, version.0)?;
    }
    Ok(())
}

/// What a publish of the line found written when it started.
fn docs_begun(alloc: Global, begun: &Begun, at: At) -> Result<List<Doc>, NoMemory>
    ensures { IfOk result (λ docs. docs ≡ begun_at begun.now at) }
{
    match begun.get(&(at.lane.0, at.line.0)) {
        Some(docs) => docs.share(alloc),
        None => Ok(List::from_vec(Vec::new(alloc))),
    }
}

/// The documents of a version.
fn docs_made(alloc: Global, made: &Made, version: u64) -> Result<List<Doc>, NoMemory>
    ensures { IfOk result (λ docs. docs ≡ made_at made.now version) }
{
    match made.get(&version) {
        Some(docs) => docs.share(alloc),
        None => Ok(List::from_vec(Vec::new(alloc))),
    }
}

fn version_searched(searched: &Searched, node: NodeNo) -> u64
    ensures { result ≡ searched_by searched.now node.0 }
{
    match searched.get(&node.0) {
        Some(version) => *version,
        None => 1,
    }
}

/// What the entries that a walk over a history has passed show.
#[derive(Drop)]
struct Walk {
    /// The documents that are written.
    texts: Texts,
    begun: Begun,
    made: Made,
    searched: Searched,
    primary: Option<NodeNo>,
    points: Vec<Point>,
}

impl Walk {
    fn new(alloc: Global) -> Result<Self, NoMemory>
        ensures { IfOk result (λ walk. KnowsPast [] walk) }
    {
        let mut points = Vec::new(alloc);
        points.push(Point {
            generation: Gen(1),
            version: Version(1),
            docs: List::from_vec(Vec::new(alloc)),
        })?;
        Ok(Walk {
            texts: Texts::new(alloc),
            begun: Begun::new(alloc),
            made: Made::new(alloc),
            searched: Searched::new(alloc),
            primary: Some(NodeNo(1)),
            points,
        })
    }

    /// One more point.
    fn add_point(
        &mut self,
        alloc: Global,
        generation: Gen,
        version: Version,
        docs: List<Doc>,
    ) -> Result<(), NoMemory>
        ensures made { OnOk result ((v : ℕ) → made_at self.new.made v ≡
            (if version.0 == v then docs else made_at self.old.made v)) }
        ensures points { OnOk result (self.new.points.items ≡ self.old.points.items ++
            record { generation = generation; version = version; docs = docs } ∷ []) }
        ensures others { OnOk result
            (self.new ≡ record self.old { made = self.new.made; points = self.new.points }) }
    {
        set_made(&mut self.made, version, docs.share(alloc)?)?;
        self.points.push(Point {
            generation,
            version,
            docs,
        })?;
        Ok(())
    }

    /// The point of a line's publish.
    fn publish(
        &mut self,
        alloc: Global,
        at: At,
        generation: Gen,
        version: Version,
    ) -> Result<(), NoMemory>
        ensures made { OnOk result ((v : ℕ) → made_at self.new.made v ≡
            (if version.0 == v then begun_at self.old.begun at else made_at self.old.made v)) }
        ensures points { OnOk result (self.new.points.items ≡ self.old.points.items ++
            record { generation = generation; version = version; docs = begun_at self.old.begun at }
            ∷ []) }
        ensures searched { OnOk result ((n : ℕ) → searched_by self.new.searched n ≡
            (if is_at self.old.primary n then version.0 else searched_by self.old.searched n)) }
        ensures others { OnOk result
            (self.new ≡
            record self.old {
              made = self.new.made;
              points = self.new.points;
              searched =
                  self.new.searched;
            }) }
    {
        let docs = docs_begun(alloc, &self.begun, at)?;
        self.add_point(alloc, generation, version, docs)?;
        set_searched(&mut self.searched, self.primary, version)
    }

    /// The point of a promotion, on which the new generation starts.
    fn promote(
        &mut self,
        alloc: Global,
        node: NodeNo,
        generation: Gen,
        version: Version,
    ) -> Result<(), NoMemory>
        requires { (v : ℕ) → IsAscending (made_at self.old.made v) }
        ensures { OnOk result (Promotes self.old self.new node generation version) }
    {
        let docs = docs_made(alloc, &self.made, version_searched(&self.searched, node))?;
        self.texts = texts_of(alloc, docs.as_slice())?;
        self.primary = Some(node);
        self.add_point(alloc, generation, version, docs)?;
        set_searched(&mut self.searched, Some(node), version)
    }

    /// Passes one more entry.
    fn pass(&mut self, alloc: Global, entry: &Entry) -> Result<(), NoMemory>
        requires ordered { IsOrdered key_cmp self.old.texts }
        requires ascending { (v : ℕ) → IsAscending (made_at self.old.made v) }
        ensures { OnOk result ((past : Past) → KnowsPast past self.old →
            IsStarted past entry.now.at entry.now.event → KnowsPast (entry.now ∷ past) self.new) }
    {
        match &entry.event {
            Event::Accepted { op, .. } => change(alloc, &mut self.texts, op),
            Event::Publishing => {
                let docs = listed(alloc, &self.texts)?;
                set_begun(&mut self.begun, entry.at, List::from_vec(docs))
            }
            Event::Published { generation, v } => self.publish(alloc, entry.at, *generation, *v),
            Event::Switched { n, v } | Event::Reopened { n, v } => {
                set_searched(&mut self.searched, Some(*n), *v)
            }
            Event::Crashed { n } => {
                if self.primary == Some(*n) {
                    self.primary = None;
                }
                Ok(())
            }
            Event::Promoted {
                n,
                generation,
                v,
                ..
            } => self.promote(alloc, *n, *generation, *v),
            _ => Ok(()),
        }
    }
}

/// The points of a legal history, in the order in which they were made, the opening point first.
pub fn points(alloc: Global, h: &History) -> Result<Vec<Point>, NoMemory>
    requires { IsLegal h.now }
    ensures { IfOk result (λ points. points.items ≡ points_of (reverse h.now.entries)) }
{
    let mut walk = Walk::new(alloc)?;
    for entry in h.entries.as_slice() {
        walk.pass(alloc, entry)?;
    }
    Ok(walk.points)
}
