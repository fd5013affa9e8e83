//! Whose turn it is: the lines of each lane, and how many of its first ones, and of the first phases, have all their replies.

ghost use Rattle.std.specs.Prelude.{ℕ, ◌≡◌, ◌==◌, [], ◌∷◌, if◌then◌else◌, reverse, Some, OnOk, IfOk, IfSome};
ghost use Rattle.history_rules.specs.Nodes.{Past};
ghost use Rattle.known_past.specs.Known.{IsKnown};
ghost use Rattle.script_serving.specs.declared.script.Script.{Script};
ghost use Rattle.script_serving.specs.Lines.{lines_of_lane, earlier_answered as earlier_answered_lem, earlier_phases_answered as earlier_phases_answered_lem};
ghost use Rattle.report_judge.specs.Spots.{IsPhaseOf};
ghost use Rattle.report_judge.specs.Turns.{lane_at, front_at, AreLanes, AreAnswered, ArePhasesAnswered, ShowsTurns};

use crate::lines::{
    earlier_answered, earlier_phases_answered, has_place, lane_places, phase_answered,
};
use history_rules::Entry;
use known_past::KnownPast;
use nrt_base::{At, LaneNo, List, NoMemory};
use script_serving::Script;
use std::alloc::Global;
use std::collections::BTreeMap;

/// Where the lines of each lane stand, in order.
pub type Lanes = BTreeMap<u8, List<At>>;

/// How many of the first lines of each lane have their replies, 0 where nothing is noted.
pub type Fronts = BTreeMap<u8, usize>;

/// The lines of each lane, and how many of the first of them have their replies.
#[derive(Drop)]
pub struct Turns {
    pub lanes: Lanes,
    pub fronts: Fronts,
}

fn set_lane(lanes: &mut Lanes, lane: u8, places: List<At>) -> Result<(), NoMemory>
    ensures { OnOk result ((k : ℕ) → lane_at lanes.new k ≡
        (if lane == k then Some places else lane_at lanes.old k)) }
{
    lanes.insert(lane, places)?;
    Ok(())
}

fn set_front(fronts: &mut Fronts, lane: u8, front: usize) -> Result<(), NoMemory>
    ensures { OnOk result ((k : ℕ) → front_at fronts.new k ≡
        (if lane == k then front else front_at fronts.old k)) }
{
    fronts.insert(lane, front)?;
    Ok(())
}

/// One more lane.
#[tactic(auto, using(crate::proofs::TurnLaws::one_more_lane))]
fn note_lane(alloc: Global, lanes: &mut Lanes, script: &Script, lane: u8) -> Result<(), NoMemory>
    requires { AreLanes script.now lanes.old }
    ensures { OnOk result (AreLanes script.now lanes.new) }
{
    let places = lane_places(alloc, script, LaneNo(lane))?;
    set_lane(lanes, lane, List::from_vec(places))
}

/// The lines of each lane.
fn lanes_of(alloc: Global, script: &Script) -> Result<Lanes, NoMemory>
    ensures { IfOk result (AreLanes script.now) }
{
    let mut lanes = Lanes::new(alloc);
    for below in 0..8 {
        note_lane(alloc, &mut lanes, script, below + 1)?;
    }
    Ok(lanes)
}

/// How many of the first lines have their replies, where so many had them before the newest entry.
#[tactic(auto, using(crate::proofs::TurnLaws::one_more_answered))]
fn next_front(places: &[At], front: usize, known: &KnownPast) -> usize
    ensures { (past : Past) → IsKnown past known.now → AreAnswered past front places.now
        → AreAnswered past result places.now }
{
    match places.get(front) {
        Some(place) => {
            if known.has_answer(*place) {
                front + 1
            } else {
                front
            }
        }
        None => front,
    }
}

impl Turns {
    /// Before any entry.
    pub fn new(alloc: Global, script: &Script) -> Result<Self, NoMemory>
        ensures { IfOk result (ShowsTurns script.now []) }
    {
        let lanes = lanes_of(alloc, script)?;
        Ok(Turns {
            lanes,
            fronts: Fronts::new(alloc),
        })
    }

    fn front(&self, lane: LaneNo) -> usize
        ensures { result ≡ front_at self.now.fronts lane.0 }
    {
        match self.fronts.get(&lane.0) {
            Some(front) => *front,
            None => 0,
        }
    }

    /// After a new entry of the line at this place.
    #[tactic(auto, using(crate::proofs::TurnLaws::front_moved))]
    fn pass(&mut self, at: At, known: &KnownPast) -> Result<(), NoMemory>
        ensures { OnOk result ((script : Script) (past : Past) → IsKnown past known.now
            → ShowsTurns script past self.old → ShowsTurns script past self.new) }
    {
        let Some(places) = self.lanes.get(&at.lane.0) else {
            return Ok(());
        };
        let front = next_front(places.as_slice(), self.front(at.lane), known);
        set_front(&mut self.fronts, at.lane.0, front)
    }

    /// Takes one more entry in, behind these.
    pub fn take(
        &mut self,
        known: &KnownPast,
        before: &[Entry],
        entry: &Entry,
    ) -> Result<(), NoMemory>
        requires known { IsKnown (entry.now ∷ reverse before.now) known.now }
        ensures { (script : Script) → ShowsTurns script (reverse before.now) self.old
            → OnOk result (ShowsTurns script (entry.now ∷ reverse before.now) self.new) }
    {
        self.pass(entry.at, known)?;
        Ok(())
    }

    /// Whether every line before this one of its lane has its reply.
    #[tactic(auto, using(crate::proofs::TurnLaws::turn_whole, crate::proofs::TurnLaws::turn_behind))]
    pub fn is_turn(
        &self,
        alloc: Global,
        script: &Script,
        known: &KnownPast,
        at: At,
        entries: &[Entry],
    ) -> Result<bool, NoMemory>
        requires known { IsKnown (reverse entries.now) known.now }
        requires shown { ShowsTurns script.now (reverse entries.now) self.now }
        ensures { IfOk result (λ is. is ≡ earlier_answered_lem
            (lines_of_lane at.lane.0 script.now) at (reverse entries.now)) }
    {
        let Some(places) = self.lanes.get(&at.lane.0) else {
            let places = lane_places(alloc, script, at.lane)?;
            return Ok(earlier_answered(places.as_slice(), at, known, entries));
        };
        let places = places.as_slice();
        let front = self.front(at.lane);
        if places.len() < front {
            return Ok(earlier_answered(places, at, known, entries));
        }
        let (passed, left) = places.split_at(front);
        if earlier_answered(left, at, known, entries) {
            return Ok(true);
        }
        Ok(has_place(passed, at))
    }
}

/// How many of the first phases have all their replies, where so many had them, up to the one before this.
#[tactic(auto, using(crate::proofs::TurnLaws::one_more_phase))]
pub fn phases_passed(
    alloc: Global,
    script: &Script,
    passed: usize,
    phase: usize,
    known: &KnownPast,
    entries: &[Entry],
) -> Result<usize, NoMemory>
    requires known { IsKnown (reverse entries.now) known.now }
    requires passed { ArePhasesAnswered script.now (reverse entries.now) passed }
    ensures { IfOk result (ArePhasesAnswered script.now (reverse entries.now)) }
{
    let mut next = passed;
    for _ in passed..phase {
        let Some(lines) = script.phases.as_slice().get(next) else {
            return Ok(next);
        };
        if !phase_answered(alloc, lines, known, entries)? {
            return Ok(next);
        }
        next += 1;
    }
    Ok(next)
}

/// Whether every line of the phases before that of a line has its reply, where so many of the first phases have all of them.
#[tactic(auto, using(crate::proofs::TurnLaws::phase_passed))]
pub fn is_phase(
    alloc: Global,
    script: &Script,
    passed: usize,
    phase: Option<usize>,
    known: &KnownPast,
    at: At,
    entries: &[Entry],
) -> Result<bool, NoMemory>
    requires known { IsKnown (reverse entries.now) known.now }
    requires passed { ArePhasesAnswered script.now (reverse entries.now) passed }
    requires phase { IfSome phase (IsPhaseOf script.now at) }
    ensures { IfOk result (λ is. is ≡ earlier_phases_answered_lem
        script.now.phases at (reverse entries.now)) }
{
    if let Some(phase) = phase {
        if phase <= passed {
            return Ok(true);
        }
    }
    earlier_phases_answered(alloc, script.phases.as_slice(), at, known, entries)
}
