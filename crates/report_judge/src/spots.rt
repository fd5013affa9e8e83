//! Where each line of a script is found by its number. What is found so is tested, and looked for where the test fails.

ghost use Rattle.std.specs.Prelude.{◌≡◌, IfSome};
ghost use Rattle.std.specs.Option.{option_copied};
ghost use Rattle.script_serving.specs.Form.{IsInForm};
ghost use Rattle.script_serving.specs.Lines.{lines_of};
ghost use Rattle.report_judge.specs.Places.{line_numbered as line_numbered_lem};
ghost use Rattle.report_judge.specs.Spots.{line_at as line_at_lem, IsPhaseOf};

use crate::lines::line_numbered;
use history_facts::same_at;
use nrt_base::{At, LaneNo, List, NoMemory};
use script_serving::{Line, Script};
use std::alloc::Global;
use std::collections::BTreeMap;

/// The phase of a line, which of its lanes has the line, and the place there.
#[derive(Clone, Copy, Debug, PartialEq, Eq)]
pub struct Spot {
    pub phase: usize,
    pub lane: usize,
    pub place: usize,
}

/// The spot of the line of each number.
pub type Spots = BTreeMap<u32, Spot>;

fn note_lines(
    spots: &mut Spots,
    phase: usize,
    lane: usize,
    lines: &[Line],
) -> Result<(), NoMemory> {
    for (place, line) in lines.iter().enumerate() {
        spots.insert(line.at.line.0, Spot { phase, lane, place })?;
    }
    Ok(())
}

fn note_lanes(
    spots: &mut Spots,
    phase: usize,
    lanes: &[(LaneNo, List<Line>)],
) -> Result<(), NoMemory> {
    for (lane, lines) in lanes.iter().enumerate() {
        note_lines(spots, phase, lane, lines.1.as_slice())?;
    }
    Ok(())
}

/// The spots of the lines of a script.
pub fn spots_of(alloc: Global, script: &Script) -> Result<Spots, NoMemory> {
    let mut spots = Spots::new(alloc);
    for (phase, lanes) in script.phases.as_slice().iter().enumerate() {
        note_lanes(&mut spots, phase, lanes.lanes.as_slice())?;
    }
    Ok(spots)
}

fn line_at<'a>(script: &'a Script, spot: Spot) -> Option<&'a Line>
    ensures { option_copied result ≡ line_at_lem script.now.phases spot }
{
    let Some(phase) = script.phases.as_slice().get(spot.phase) else {
        return None;
    };
    let Some(lane) = phase.lanes.as_slice().get(spot.lane) else {
        return None;
    };
    lane.1.as_slice().get(spot.place)
}

/// The script's line of this number.
#[tactic(auto, using(crate::proofs::SpotLaws::numbered_there))]
pub fn find_line<'a>(spots: &Spots, number: u32, script: &'a Script) -> Option<&'a Line>
    requires form { IsInForm script.now }
    ensures { option_copied result ≡ line_numbered_lem number (lines_of script.now) }
{
    if let Some(spot) = spots.get(&number) {
        if let Some(line) = line_at(script, *spot) {
            if line.at.line.0 == number {
                return Some(line);
            }
        }
    }
    line_numbered(number, script)
}

/// The phase of the line at this place, counted from 0.
#[tactic(auto, using(crate::proofs::SpotLaws::phase_there))]
pub fn phase_of(spots: &Spots, at: At, script: &Script) -> Option<usize>
    ensures { IfSome result (IsPhaseOf script.now at) }
{
    if let Some(spot) = spots.get(&at.line.0) {
        if let Some(line) = line_at(script, *spot) {
            if same_at(line.at, at) {
                return Some(spot.phase);
            }
        }
    }
    None
}
