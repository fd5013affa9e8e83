//! Legal histories keep the plain rules.

ghost use Rattle.history_rules.specs.Legal.{IsLegal};
ghost use Rattle.history_rules.specs.Plain.{IsPlainlyLegal};

use crate::entry::History;

/// A legal history keeps the plain rules. A law.
pub fn is_plainly_legal(h: &History)
    requires { IsLegal h.now }
    ensures { IsPlainlyLegal h.now }
{}
