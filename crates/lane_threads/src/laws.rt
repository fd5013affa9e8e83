//! Laws of lanes: from what one call adds to the script that all lanes served. Each is a call that does nothing, and what it
//! ensures is the law. Entries stand newest first.

ghost use Rattle.std.specs.Prelude.{◌≡◌, ℕ, ◌≤◌, ◌+◌, [], true, false, length, slice_get, Some, None};
ghost use Rattle.history_book.specs.Log.{FaultsFollow, printed};
ghost use Rattle.history_rules.specs.Lines.{entries_of_line};
ghost use Rattle.script_serving.specs.Form.{is_phase, IsInForm};
ghost use Rattle.script_serving.specs.Lines.{lines_under};
ghost use Rattle.script_serving.specs.Serves.{Serves};
ghost use Rattle.lane_threads.specs.Idle.{TellsNone, NoneIsTold};
ghost use Rattle.lane_threads.specs.Firsts.{TellsFirst, FirstIsTold};
ghost use Rattle.lane_threads.specs.Owes.{GoesByLine, GoesByTask, FaultsFit};
ghost use Rattle.lane_threads.specs.Walks.{GrowsByLane, GrowsByOthers, LineStays, LineGoes, LineRan, StillFresh, AreUnbegun, ArePart, Going, LinesRan};
ghost use Rattle.lane_threads.specs.Phases.{ArePhasesInForm, LaneServes, LaneReady, LaneReadyAt, PhaseDone, HasRanPart, LanesEnd, IsHistoryOf};

use history_book::Mark;
use history_rules::History;
use nrt_base::At;
use script_serving::{Line, LineCommand, Phase, Script};

// ---- one line

/// A call of a line takes it on, whatever other lines its lane has.
pub fn call_takes_its_line_on(
    logged: bool,
    command: &LineCommand,
    at: At,
    old: &[Mark],
    new: &[Mark],
)
    requires faults { FaultsFit logged old.now }
    requires goes { GoesByLine logged command.now at old.now new.now }
    requires none { TellsNone command.now old.now new.now }
    requires first { TellsFirst command.now old.now new.now }
    ensures { LineGoes logged command.now at old.now new.now }
{}

/// What others do takes a line on too, and leaves it where it is.
pub fn others_leave_a_line(logged: bool, command: &LineCommand, at: At, old: &[Mark], new: &[Mark])
    requires { GrowsByOthers logged at.lane.0 old.now new.now }
    ensures goes { LineGoes logged command.now at old.now new.now }
    ensures stays { LineStays at old.now new.now }
{}

/// Two steps of a line are one.
pub fn steps_of_a_line_join(
    logged: bool,
    command: &LineCommand,
    at: At,
    old: &[Mark],
    mid: &[Mark],
    new: &[Mark],
)
    requires before { LineGoes logged command.now at old.now mid.now }
    requires after { LineGoes logged command.now at mid.now new.now }
    ensures { LineGoes logged command.now at old.now new.now }
{}

/// A line that is done behind some of its steps is done.
pub fn last_step_ends_a_line(
    logged: bool,
    command: &LineCommand,
    at: At,
    old: &[Mark],
    mid: &[Mark],
    new: &[Mark],
)
    requires before { LineGoes logged command.now at old.now mid.now }
    requires after { LineRan logged command.now at mid.now new.now }
    ensures { LineRan logged command.now at old.now new.now }
{}

/// A line that has no entry behind some of its steps may still begin.
pub fn line_may_wait(
    logged: bool,
    command: &LineCommand,
    at: At,
    old: &[Mark],
    mid: &[Mark],
    new: &[Mark],
)
    requires before { LineGoes logged command.now at old.now mid.now }
    requires after { StillFresh logged command.now at mid.now new.now }
    ensures { StillFresh logged command.now at old.now new.now }
{}

/// A task leaves the faults of merges in order.
pub fn task_keeps_faults_in_order(logged: bool, seat: usize, old: &[Mark], new: &[Mark])
    requires faults { FaultsFit logged old.now }
    requires goes { GoesByTask logged seat old.now new.now }
    ensures { FaultsFit logged new.now }
{}

/// Without a log no fault of a merge has to wait.
pub fn faults_fit_without_a_log(log: &[Mark])
    requires { FaultsFollow log.now }
    ensures { FaultsFit false log.now }
{}

// ---- the lines of a part

/// Where no line of a part has an entry, none is done.
pub fn part_begins(logged: bool, lane: usize, lines: &[Line], log: &[Mark])
    requires faults { FaultsFit logged log.now }
    requires fresh { AreUnbegun lines.now (printed log.now) }
    ensures { Going logged lane lines.now 0 log.now log.now }
{}

/// The next line of a part has no entry yet, and is the lane's.
pub fn next_line_may_begin(
    logged: bool,
    lane: usize,
    lines: &[Line],
    i: usize,
    line: &Line,
    initial: &[Mark],
    now: &[Mark],
)
    requires part { ArePart lane lines.now }
    requires line { slice_get lines.now i ≡ Some line.now }
    requires going { Going logged lane lines.now i initial.now now.now }
    ensures lane { line.now.at.lane.0 ≡ lane }
    ensures fresh { entries_of_line line.now.at (printed now.now) ≡ [] }
{}

/// Where the next line of a part is done, one line more is.
pub fn line_follows_line(
    logged: bool,
    lane: usize,
    lines: &[Line],
    i: usize,
    line: &Line,
    initial: &[Mark],
    old: &[Mark],
    new: &[Mark],
)
    requires part { ArePart lane lines.now }
    requires line { slice_get lines.now i ≡ Some line.now }
    requires going { Going logged lane lines.now i initial.now old.now }
    requires ran { LineRan logged line.now.command line.now.at old.now new.now }
    ensures { Going logged lane lines.now (i + 1) initial.now new.now }
{}

/// Where as many lines are done as a part has, the part is.
pub fn part_ends(
    logged: bool,
    lane: usize,
    lines: &[Line],
    i: usize,
    initial: &[Mark],
    now: &[Mark],
)
    requires all { length lines.now ≤ i }
    requires going { Going logged lane lines.now i initial.now now.now }
    ensures { LinesRan logged lane lines.now initial.now now.now }
{}

// ---- phases

/// Before anything has happened each lane is ready for the first phase.
pub fn lane_begins(logged: bool, lane: usize, phases: &[Phase])
    ensures { LaneReady logged lane phases.now [] phases.now [] }
{}

/// The part of a lane that is ready for a phase has no entry yet.
pub fn part_may_begin(
    logged: bool,
    lane: usize,
    phases: &[Phase],
    k: usize,
    phase: &Phase,
    log: &[Mark],
)
    requires form { ArePhasesInForm phases.now }
    requires phase { slice_get phases.now k ≡ Some phase.now }
    requires ready { LaneReadyAt logged lane phases.now k log.now }
    ensures part { ArePart lane (lines_under lane phase.now.lanes) }
    ensures fresh { AreUnbegun (lines_under lane phase.now.lanes) (printed log.now) }
{}

/// A lane that has done its part of a phase, and then heard of the parts of all others, has done the phase.
pub fn lanes_end_a_phase(
    logged: bool,
    lane: usize,
    phase: &Phase,
    old: &[Mark],
    mid: &[Mark],
    new: &[Mark],
)
    requires form { is_phase phase.now ≡ true }
    requires ran { LinesRan logged lane (lines_under lane phase.now.lanes) old.now mid.now }
    requires apart { GrowsByOthers logged lane mid.now new.now }
    requires all { (other : ℕ) → 1 ≤ other → other ≤ 8 → HasRanPart other phase.now new.now }
    ensures { PhaseDone logged lane phase.now old.now new.now }
{}

/// A lane that was ready for a phase, and has done it, is ready for the next.
pub fn phase_follows_phase(
    logged: bool,
    lane: usize,
    phases: &[Phase],
    k: usize,
    phase: &Phase,
    old: &[Mark],
    new: &[Mark],
)
    requires form { ArePhasesInForm phases.now }
    requires phase { slice_get phases.now k ≡ Some phase.now }
    requires ready { LaneReadyAt logged lane phases.now k old.now }
    requires done { PhaseDone logged lane phase.now old.now new.now }
    ensures { LaneReadyAt logged lane phases.now (k + 1) new.now }
{}

/// What others do leaves what a lane has served.
pub fn others_leave_a_lane(logged: bool, lane: usize, phases: &[Phase], old: &[Mark], new: &[Mark])
    requires form { ArePhasesInForm phases.now }
    requires apart { GrowsByOthers logged lane old.now new.now }
    requires serves { LaneServes logged lane phases.now old.now }
    ensures { LaneServes logged lane phases.now new.now }
{}

// ---- the script

/// The phases of a script in form are in form.
pub fn phases_are_in_form(script: &Script)
    requires { IsInForm script.now }
    ensures { ArePhasesInForm script.now.phases }
{}

/// Where each of the eight lanes has done all phases, and nobody else appended a printed entry, the script is served, each publish that is
/// answered `none` has nothing to take, and each merge takes the first range that is due.
pub fn lanes_serve_the_script(script: &Script, log: &[Mark], h: &History)
    requires form { IsInForm script.now }
    requires ends { LanesEnd script.now log.now }
    requires history { IsHistoryOf script.now.nodes log.now h.now }
    ensures serves { Serves script.now h.now }
    ensures none { NoneIsTold script.now log.now }
    ensures first { FirstIsTold script.now None log.now }
{}
