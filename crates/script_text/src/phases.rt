//! The phases of a script, put together from its statements.

ghost use Rattle.std.specs.Prelude.{◌≡◌, ◌≤◌, ◌<◌, ◌+◌, ◌^◌, ◌==◌, ◌++◌, ◌∷◌, [], not, length, filter, IfOk, OnOk};
ghost use Rattle.script_text.specs.Grammar.{of_lane, lane_entry, phase_of as phase_of_lem, statements_from, lines_of_text};
ghost use Rattle.script_text.specs.Reading.{ArePhasesRead, TakesLater};

use crate::counted::Counted;
use crate::fault::ScriptFault;
use crate::lane_lines::{Later, read_later};
use crate::lines::next_statement;
use nrt_base::{LaneNo, List, NoMemory};
use script_serving::{Line, Phase};
use std::alloc::Global;
use std::mem;

/// How many lanes there are at most.
const LANES: u8 = 8;

/// The lines of a lane, and the lines of the others.
fn split_lane(alloc: Global, lane: u8, lines: Vec<Line>) -> Result<(Vec<Line>, Vec<Line>), NoMemory>
    ensures { IfOk result (λ parts. (parts.0.items ≡ of_lane lane lines.items) × (parts.1.items
        ≡ filter (λ line. not (line.at.lane.0 == lane)) lines.items)) }
{
    let mut mine = Vec::new(alloc);
    let mut others = Vec::new(alloc);
    for line in lines {
        if line.at.lane.0 == lane {
            mine.push(line)?;
        } else {
            others.push(line)?;
        }
    }
    Ok((mine, others))
}

/// Adds a lane with its lines, where it has lines.
fn push_lane(
    lanes: &mut Vec<(LaneNo, List<Line>)>,
    lane: u8,
    lines: Vec<Line>,
) -> Result<(), NoMemory>
    ensures { OnOk result (lanes.new.items ≡ lanes.old.items ++ lane_entry lane lines.items) }
{
    if !lines.is_empty() {
        lanes.push((LaneNo(lane), List::from_vec(lines)))?;
    }
    Ok(())
}

/// The phase of these lines.
pub fn phase_of(alloc: Global, lines: Vec<Line>) -> Result<Phase, NoMemory>
    ensures { IfOk result (λ phase. phase ≡ phase_of_lem lines.items) }
{
    let mut lanes = Vec::new(alloc);
    let mut left = lines;
    for lane in 1..LANES + 1 {
        let (mine, others) = split_lane(alloc, lane, left)?;
        push_lane(&mut lanes, lane, mine)?;
        left = others;
    }
    Ok(Phase {
        lanes: List::from_vec(lanes),
    })
}

/// Takes a statement behind those of the phases that have ended and of the lines of the last phase.
fn take_later(
    alloc: Global,
    phases: &mut Vec<Phase>,
    lines: &mut Vec<Line>,
    later: Later,
) -> Result<(), NoMemory>
    ensures { OnOk result
        (TakesLater later phases.old.items lines.old.items phases.new.items lines.new.items) }
{
    match later {
        Later::Join => {
            let ended = mem::replace(lines, Vec::new(alloc));
            phases.push(phase_of(alloc, ended)?)?;
        }
        Later::Line(line) => lines.push(line)?,
    }
    Ok(())
}

/// The phases that have ended and the last one, which has these lines.
fn all_phases(alloc: Global, phases: Vec<Phase>, lines: Vec<Line>) -> Result<List<Phase>, NoMemory>
    ensures { IfOk result (λ all. all ≡ phases.items ++ phase_of_lem lines.items ∷ []) }
{
    let mut phases = phases;
    phases.push(phase_of(alloc, lines)?)?;
    Ok(List::from_vec(phases))
}

/// The phases that the statements of a text spell, where there are so many nodes, a log or none, and so many headers before it.
/// The first line of the text has this number.
pub fn read_phases(
    alloc: Global,
    nodes: u8,
    log: bool,
    before: Counted,
    text: &[u8],
    number: u32,
) -> Result<List<Phase>, ScriptFault>
    requires bounded { number + length text.now < 2 ^ 32 }
    requires few { before.statements ≤ 3 }
    requires none { before.promotions ≡ 0 }
    ensures { ArePhasesRead nodes log before (statements_from number
        (lines_of_text text.now)) result }
{
    let mut phases = Vec::new(alloc);
    let mut lines = Vec::new(alloc);
    let mut before = before;
    let mut left = text;
    let mut number = number;
    while let Some((statement, rest)) = next_statement(left, number) {
        let later = match read_later(alloc, nodes, log, before, statement) {
            Ok(later) => later,
            Err(refusal) => return Err(refusal.on_line(statement.number)),
        };
        take_later(alloc, &mut phases, &mut lines, later)?;
        before = before.with(statement);
        left = rest;
        number = statement.number + 1;
    }
    Ok(all_phases(alloc, phases, lines)?)
}
