//! How lines end that have started. What a law ensures is what it says; its call changes nothing.

ghost use Rattle.history_rules.specs.Legal.{IsLegal};
ghost use Rattle.script_serving.specs.Serves.{Serves};
ghost use Rattle.serving_rules.specs.Finishing.{UnharmedLinesFinish, FaultsWereMet};

use history_rules::History;
use script_serving::Script;

/// In a legal history that serves a script, a line that has started ends as it should, unless it met a fault, lost its node or its source, or
/// was cancelled by a later job; and no line is refused for a fault that met none. (That each line ends is a part of serving.)
pub fn started_lines_finish(script: &Script, h: &History)
    requires legal { IsLegal h.now }
    requires serves { Serves script.now h.now }
    ensures finish { UnharmedLinesFinish h.now }
    ensures faults { FaultsWereMet h.now }
{}
