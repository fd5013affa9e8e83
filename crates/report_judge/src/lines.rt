//! Where the lines of a script stand, and which have their replies.

ghost use Rattle.std.specs.Prelude.{◌≡◌, ◌++◌, reverse, map, OnOk, IfOk};
ghost use Rattle.std.specs.Option.{option_copied};
ghost use Rattle.std.specs.List.{flat_map, list_all, list_any};
ghost use Rattle.history_rules.specs.Lines.{same_at as same_at_lem, is_answered as is_answered_lem};
ghost use Rattle.script_serving.specs.Lines.{lines_of, lines_of_phase, lines_under, lines_of_lane, has_line, all_answered as all_answered_lem, earlier_phases_answered as earlier_phases_answered_lem};
ghost use Rattle.known_past.specs.Known.{IsKnown};
ghost use Rattle.report_judge.specs.Places.{place_of, earlier_places, unanswered_place, line_numbered as line_numbered_lem};

use history_facts::same_at;
use history_rules::Entry;
use known_past::KnownPast;
use nrt_base::{At, LaneNo, List, NoMemory};
use script_serving::{Line, Phase, Script};
use std::alloc::Global;

fn push_lines(out: &mut Vec<At>, lines: &[Line]) -> Result<(), NoMemory>
    ensures { OnOk result (out.new.items ≡ out.old.items ++ map place_of lines.now) }
{
    for line in lines {
        out.push(line.at)?;
    }
    Ok(())
}

#[tactic(auto, using(crate::proofs::PlaceLaws::more_places))]
fn push_lanes(out: &mut Vec<At>, lanes: &[(LaneNo, List<Line>)]) -> Result<(), NoMemory>
    ensures { OnOk result (out.new.items
        ≡ out.old.items ++ map place_of (flat_map (λ lane. lane.1) lanes.now)) }
{
    for lane in lanes {
        push_lines(out, lane.1.as_slice())?;
    }
    Ok(())
}

#[tactic(auto, using(crate::proofs::PlaceLaws::more_places))]
fn push_under(
    out: &mut Vec<At>,
    under: LaneNo,
    lanes: &[(LaneNo, List<Line>)],
) -> Result<(), NoMemory>
    ensures { OnOk result (out.new.items
        ≡ out.old.items ++ map place_of (lines_under under.0 lanes.now)) }
{
    for lane in lanes {
        if lane.0.0 == under.0 {
            push_lines(out, lane.1.as_slice())?;
        }
    }
    Ok(())
}

/// Where the lines of a lane stand, over all phases, in order.
#[tactic(auto, using(crate::proofs::PlaceLaws::more_places))]
pub fn lane_places(alloc: Global, script: &Script, lane: LaneNo) -> Result<Vec<At>, NoMemory>
    ensures { IfOk result (λ places. places.items
        ≡ map place_of (lines_of_lane lane.0 script.now)) }
{
    let mut places = Vec::new(alloc);
    for phase in script.phases.as_slice() {
        push_under(&mut places, lane, phase.lanes.as_slice())?;
    }
    Ok(places)
}

/// Where the lines of a phase stand.
fn phase_places(alloc: Global, phase: &Phase) -> Result<Vec<At>, NoMemory>
    ensures { IfOk result (λ places. places.items ≡ map place_of (lines_of_phase phase.now)) }
{
    let mut places = Vec::new(alloc);
    push_lanes(&mut places, phase.lanes.as_slice())?;
    Ok(places)
}

/// Where the lines of a script stand.
#[tactic(auto, using(crate::proofs::PlaceLaws::more_places))]
pub fn all_places(alloc: Global, script: &Script) -> Result<Vec<At>, NoMemory>
    ensures { IfOk result (λ places. places.items ≡ map place_of (lines_of script.now)) }
{
    let mut places = Vec::new(alloc);
    for phase in script.phases.as_slice() {
        push_lanes(&mut places, phase.lanes.as_slice())?;
    }
    Ok(places)
}

/// Whether every line before the one at this place has its reply.
pub fn earlier_answered(places: &[At], at: At, known: &KnownPast, entries: &[Entry]) -> bool
    requires { IsKnown (reverse entries.now) known.now }
    ensures { result ≡ earlier_places places.now at (reverse entries.now) }
{
    for place in places {
        if same_at(*place, at) {
            return true;
        }
        if !known.is_answered(*place, entries) {
            return false;
        }
    }
    true
}

/// The first of the places whose line has no reply.
pub fn first_unanswered(places: &[At], known: &KnownPast, entries: &[Entry]) -> Option<At>
    requires { IsKnown (reverse entries.now) known.now }
    ensures { result ≡ unanswered_place places.now (reverse entries.now) }
{
    for place in places {
        if !known.is_answered(*place, entries) {
            return Some(*place);
        }
    }
    None
}

/// Whether one of the places is this.
pub fn has_place(places: &[At], at: At) -> bool
    ensures { result ≡ list_any (λ place. same_at_lem place at) places.now }
{
    for place in places {
        if same_at(*place, at) {
            return true;
        }
    }
    false
}

fn all_answered(places: &[At], known: &KnownPast, entries: &[Entry]) -> bool
    requires { IsKnown (reverse entries.now) known.now }
    ensures { result ≡ list_all (λ place. is_answered_lem place (reverse entries.now)) places.now }
{
    for place in places {
        if !known.is_answered(*place, entries) {
            return false;
        }
    }
    true
}

/// Whether a phase has a line at this place.
#[tactic(auto, using(crate::proofs::PlaceLaws::has_places))]
fn phase_has(alloc: Global, phase: &Phase, at: At) -> Result<bool, NoMemory>
    ensures { IfOk result (λ has. has ≡ has_line (lines_of_phase phase.now) at) }
{
    let places = phase_places(alloc, phase)?;
    Ok(has_place(places.as_slice(), at))
}

/// Whether every line of a phase has its reply.
#[tactic(auto, using(crate::proofs::PlaceLaws::all_places_are))]
pub fn phase_answered(
    alloc: Global,
    phase: &Phase,
    known: &KnownPast,
    entries: &[Entry],
) -> Result<bool, NoMemory>
    requires { IsKnown (reverse entries.now) known.now }
    ensures { IfOk result (λ answered. answered
        ≡ all_answered_lem (lines_of_phase phase.now) (reverse entries.now)) }
{
    let places = phase_places(alloc, phase)?;
    Ok(all_answered(places.as_slice(), known, entries))
}

/// Whether every line of the phases before the one that has this place has its reply.
pub fn earlier_phases_answered(
    alloc: Global,
    phases: &[Phase],
    at: At,
    known: &KnownPast,
    entries: &[Entry],
) -> Result<bool, NoMemory>
    requires { IsKnown (reverse entries.now) known.now }
    ensures { IfOk result (λ answered. answered
        ≡ earlier_phases_answered_lem phases.now at (reverse entries.now)) }
{
    for phase in phases {
        if phase_has(alloc, phase, at)? {
            return Ok(true);
        }
        if !phase_answered(alloc, phase, known, entries)? {
            return Ok(false);
        }
    }
    Ok(true)
}

fn numbered_in<'a>(number: u32, lines: &'a [Line]) -> Option<&'a Line>
    ensures { option_copied result ≡ line_numbered_lem number lines.now }
{
    for line in lines {
        if line.at.line.0 == number {
            return Some(line);
        }
    }
    None
}

fn numbered_in_lanes<'a>(number: u32, lanes: &'a [(LaneNo, List<Line>)]) -> Option<&'a Line>
    ensures { option_copied result
        ≡ line_numbered_lem number (flat_map (λ lane. lane.1) lanes.now) }
{
    for lane in lanes {
        if let Some(line) = numbered_in(number, lane.1.as_slice()) {
            return Some(line);
        }
    }
    None
}

/// The script's line of this number.
pub fn line_numbered<'a>(number: u32, script: &'a Script) -> Option<&'a Line>
    ensures { option_copied result ≡ line_numbered_lem number (lines_of script.now) }
{
    for phase in script.phases.as_slice() {
        if let Some(line) = numbered_in_lanes(number, phase.lanes.as_slice()) {
            return Some(line);
        }
    }
    None
}
