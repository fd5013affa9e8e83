//! Which answers of a history are right. Searches are taken in the order of what wrote their documents, and not in their own: so each
//! operation is followed once, whatever versions they go back to.

ghost use Rattle.std.specs.Prelude.{ℕ, ◌≡◌, ◌==◌, ◌<◌, ◌^◌, ◌↔◌, List, Some, if◌then◌else◌, length, reverse, take, get_or, IsTrue, IfOk, IfSome, OnOk};
ghost use Rattle.std.specs.List.{All};
ghost use Rattle.documents.specs.Documents.{documents_in};
ghost use Rattle.documents.specs.Ranking.{first_rank, scan_of};
ghost use Rattle.history_rules.specs.declared.entry.Entry.{Entry as EntryLem};
ghost use Rattle.history_rules.specs.Nodes.{Past, accepted_count};
ghost use Rattle.history_rules.specs.Points.{documents_at};
ghost use Rattle.history_points.specs.AskedPoints.{ArePlacesOfPoints, IsReachedBy};
ghost use Rattle.history_points.specs.Kept.{IsSearched};
ghost use Rattle.history_points.specs.RightAnswers.{told_at, IsRequest, IsRightAnswer, AreTold};

use crate::places::{Places, no_places, note_point, place_of};
use crate::reached::Reached;
use crate::searched::SearchedTexts;
use documents::{Answer, Hit, Query};
use history_facts::documents_at;
use history_rules::{Entry, Event};
use known_past::KnownPast;
use nrt_base::{NoMemory, Version};
use std::alloc::Global;
use std::collections::BTreeMap;

/// The most documents among which an answer is told.
const MOST_TOLD: usize = 0xffff_ffff;

/// A search that was answered.
#[derive(Clone, Copy, Debug, PartialEq, Eq)]
pub struct Request {
    /// How many of the first entries wrote the documents of its version.
    pub place: usize,
    /// How many entries stand before its answer.
    pub at: usize,
    pub version: Version,
}

/// Whether each answer is right, by how many entries stand before it.
type Told = BTreeMap<usize, bool>;

fn same_hits(a: &[Hit], b: &[Hit]) -> bool
    ensures { IsTrue result ↔ (a.now ≡ b.now) }
{
    a == b
}

fn same_answer(a: &Answer, b: &Answer) -> bool
    ensures { IsTrue result ↔ (a.now ≡ b.now) }
{
    a.total == b.total && same_hits(a.hits.as_slice(), b.hits.as_slice())
}

fn is_told(rank: u32)
    ensures { rank < 2 ^ 32 }
{}

// The rank of the first hit is one that 32 bits tell, since it is a `u32`.
fn read_first_rank(answer: &Answer)
    ensures { first_rank answer.now.hits < 2 ^ 32 }
{
    if let Some(hit) = answer.hits.as_slice().first() {
        is_told(hit.rank);
    }
}

/// Whether the answer is what a search of the texts answers.
fn is_answer(
    alloc: Global,
    searched: &mut SearchedTexts,
    query: &Query,
    answer: &Answer,
) -> Result<bool, NoMemory>
    requires few { length searched.old.texts.entries < 2 ^ 32 }
    requires kept { IsSearched searched.old }
    ensures right { IfOk result (λ right. IsTrue right ↔
        (answer.now ≡ scan_of (documents_in searched.old.texts) query.now)) }
    ensures texts { searched.new.texts ≡ searched.old.texts }
    ensures kept { OnOk result (IsSearched searched.new) }
{
    match searched.answer(alloc, query)? {
        Some(right) => Ok(same_answer(answer, &right)),
        None => {
            read_first_rank(answer);
            Ok(false)
        }
    }
}

/// Whether the event is a right answer at this version, whose documents are the texts. None where it is no answer, or there are too many.
fn is_right_among(
    alloc: Global,
    searched: &mut SearchedTexts,
    version: Version,
    event: &Event,
) -> Result<Option<bool>, NoMemory>
    requires { IsSearched searched.old }
    ensures right { IfOk result (λ found. IfSome found (λ right. (past : Past)
        → documents_in searched.old.texts ≡ documents_at past version.0
        → IsTrue right ↔ IsRightAnswer past event.now)) }
    ensures texts { searched.new.texts ≡ searched.old.texts }
    ensures kept { OnOk result (IsSearched searched.new) }
{
    if searched.len() > MOST_TOLD {
        return Ok(None);
    }
    match event {
        Event::Answered {
            v,
            query,
            answer,
            ..
        } if v.0 == version.0 => {
            let right = is_answer(alloc, searched, query, answer)?;
            Ok(Some(right))
        }
        _ => Ok(None),
    }
}

fn set_told(told: &mut Told, at: usize, right: bool) -> Result<(), NoMemory>
    ensures { OnOk result ((i : ℕ) → told_at told.new i ≡
        (if at == i then Some right else told_at told.old i)) }
{
    told.insert(at, right)?;
    Ok(())
}

fn noted(told: &Told, at: usize) -> Option<bool>
    ensures { result ≡ told_at told.now at }
{
    match told.get(&at) {
        Some(right) => Some(*right),
        None => None,
    }
}

/// Notes whether the answer of a search is right.
fn note_answer(
    alloc: Global,
    entries: &[Entry],
    reached: &mut Reached,
    request: Request,
    told: &mut Told,
) -> Result<(), NoMemory>
    requires request { IsRequest entries.now request }
    requires reached { IsReachedBy (reverse entries.now) reached.old }
    requires told { AreTold entries.now told.old }
    ensures reached { OnOk result (IsReachedBy (reverse entries.now) reached.new) }
    ensures told { OnOk result (AreTold entries.now told.new) }
{
    let before = &entries[..request.at];
    reached.go_to(alloc, entries, request.place, before, request.version)?;
    let event = &entries[request.at].event;
    match is_right_among(alloc, &mut reached.searched, request.version, event)? {
        Some(right) => set_told(told, request.at, right),
        None => Ok(()),
    }
}

/// Takes an entry in where it answers a search.
fn note_request(
    requests: &mut Vec<Request>,
    places: &Places,
    entries: &[Entry],
    at: usize,
) -> Result<(), NoMemory>
    requires within { at < length entries.now }
    requires places { ArePlacesOfPoints (reverse (take at entries.now)) places.now }
    requires requests { All (IsRequest entries.now) requests.old.items }
    ensures { OnOk result (All (IsRequest entries.now) requests.new.items) }
{
    match &entries[at].event {
        Event::Answered { v, .. } => {
            let place = place_of(places, v.0);
            requests.push(Request {
                place,
                at,
                version: *v,
            })?;
            Ok(())
        }
        _ => Ok(()),
    }
}

/// The searches that were answered.
fn requests_of(alloc: Global, entries: &[Entry]) -> Result<Vec<Request>, NoMemory>
    ensures { IfOk result (λ requests. All (IsRequest entries.now) requests.items) }
{
    let mut known = KnownPast::new(alloc);
    let mut places = no_places(alloc);
    let mut requests = Vec::new(alloc);
    for (at, entry) in entries.iter().enumerate() {
        let before = &entries[..at];
        note_request(&mut requests, &places, entries, at)?;
        note_point(&mut places, &known, before, entry)?;
        known = known.after(before, entry)?;
    }
    Ok(requests)
}

/// Puts searches in the order of what wrote their documents.
fn order(requests: &mut Vec<Request>)
    ensures { (entries : List EntryLem) → All (IsRequest entries) requests.old.items
        → All (IsRequest entries) requests.new.items }
{
    requests.sort_unstable_by(|a, b| a.place.cmp(&b.place));
}

/// Which answers of a history are right.
#[derive(Drop)]
pub struct RightAnswers {
    told: Told,
}

impl RightAnswers {
    /// Those of these entries.
    pub fn of(alloc: Global, entries: &[Entry]) -> Result<Self, NoMemory>
        ensures { IfOk result (λ right. AreTold entries.now right.told) }
    {
        let mut requests = requests_of(alloc, entries)?;
        order(&mut requests);
        let mut told = Told::new(alloc);
        let mut reached = Reached::new(alloc);
        for request in requests.as_slice() {
            note_answer(alloc, entries, &mut reached, *request, &mut told)?;
        }
        Ok(RightAnswers { told })
    }

    /// Whether the answer behind so many entries is right, where it is noted.
    pub fn told(&self, entries: &[Entry], at: usize) -> Option<bool>
        requires told { AreTold entries.now self.now.told }
        requires within { at < length entries.now }
        ensures { (e : EntryLem) → e ≡ get_or entries.now at e → IfSome result (λ right.
            IsTrue right ↔ IsRightAnswer (reverse (take at entries.now)) e.event) }
    {
        noted(&self.told, at)
    }
}

/// Whether the answer is the scan of the documents of the point of this version. It is looked for where nothing is told of it.
pub fn is_right(
    alloc: Global,
    entries: &[Entry],
    told: Option<bool>,
    v: Version,
    query: &Query,
    answer: &Answer,
) -> Result<bool, NoMemory>
    requires few { accepted_count (reverse entries.now) < 2 ^ 32 }
    requires told { IfSome told (λ right. IsTrue right ↔
        (answer.now ≡ scan_of (documents_at (reverse entries.now) v.0) query.now)) }
    ensures { IfOk result (λ right. IsTrue right ↔
        (answer.now ≡ scan_of (documents_at (reverse entries.now) v.0) query.now)) }
{
    if let Some(right) = told {
        return Ok(right);
    }
    let docs = documents_at(alloc, entries, v)?;
    let mut searched = SearchedTexts::of(alloc, docs.as_slice())?;
    let right = is_answer(alloc, &mut searched, query, answer)?;
    Ok(right)
}
