//! What becomes of a copy of a newer version: laws of whether a version was passed.

ghost use Rattle.history_rules.specs.Passed.{StaysUnpassed, NewestIsUnpassed, RefusedAtOnce};

/// No entry but a copy above it passes a version.
pub fn stays_unpassed()
    ensures { StaysUnpassed }
{}

/// The newest version is not passed.
pub fn newest_is_unpassed()
    ensures { NewestIsUnpassed }
{}

/// A copy that a fault of a disk refuses at once passes no version.
pub fn refused_at_once()
    ensures { RefusedAtOnce }
{}
