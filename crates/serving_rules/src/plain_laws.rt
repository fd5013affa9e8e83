//! That serving is plain serving. What a law ensures is what it says; its call changes nothing.

ghost use Rattle.script_serving.specs.Form.{IsInForm};
ghost use Rattle.script_serving.specs.Serves.{Serves};
ghost use Rattle.serving_rules.specs.PlainServing.{PlainlyServes};

use history_rules::History;
use script_serving::Script;

/// A history that serves a script serves it plainly.
pub fn is_plain_serving(script: &Script, h: &History)
    requires form { IsInForm script.now }
    requires serves { Serves script.now h.now }
    ensures { PlainlyServes script.now h.now }
{}
