//! Laws of replays. What a law ensures is what it says; its call changes nothing.

ghost use Rattle.std.specs.Prelude.{◌≡◌, true};
ghost use Rattle.script_serving.specs.Serves.{Serves};
ghost use Rattle.serving_rules.specs.Replay.{IsReplayed};

use history_rules::History;
use script_serving::Script;

/// In a history that serves a script with a log, the line of each promotion accepts again, at once and in order, exactly
/// the logged operations that the promoted point lacks.
pub fn serving_replays_the_log(script: &Script, h: &History)
    requires log { script.now.log ≡ true }
    requires serves { Serves script.now h.now }
    ensures { IsReplayed h.now }
{}
