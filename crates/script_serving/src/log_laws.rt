//! Laws of a log. What a law ensures is what it says; its call changes nothing.

ghost use Rattle.std.specs.Prelude.{◌≡◌, reverse, true};
ghost use Rattle.script_serving.specs.LogLaws.{PointsAreLogged, NothingIsLost, PublishesAreWhole};
ghost use Rattle.script_serving.specs.Serves.{Serves};

use crate::script::Script;
use history_rules::History;

/// In a history that serves a script with a log, each point has the first of the logged operations, none is lost, and each
/// publish makes a point of all that were logged before it.
pub fn log_loses_nothing(script: &Script, h: &History)
    requires log { script.now.log ≡ true }
    requires serves { Serves script.now h.now }
    ensures points { PointsAreLogged h.now }
    ensures written { NothingIsLost h.now }
    ensures whole { PublishesAreWhole (reverse h.now.entries) }
{}
