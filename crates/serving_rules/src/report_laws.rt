//! Laws of scripts and histories. What a law ensures is what it says; its call changes nothing.

ghost use Rattle.std.specs.Prelude.{IsTrue};
ghost use Rattle.serving_rules.specs.Determined.{TextsDetermineHistories};
ghost use Rattle.script_serving.specs.Form.{are_distinct};
ghost use Rattle.script_serving.specs.Lines.{lines_of};

use crate::printable::entries_fit;
use history_rules::History;
use script_serving::Script;

/// Two histories that serve the same script and have the same text are equal.
/// No two lines of the script may have one number, as in every script that is in form: the text names a line by its number alone.
pub fn texts_determine_histories(script: &Script, h: &History, k: &History)
    requires { IsTrue (are_distinct (lines_of script.now)) }
    ensures { TextsDetermineHistories script.now h.now k.now }
{
    entries_fit(h);
    entries_fit(k);
}
