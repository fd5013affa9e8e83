//! Which entries keep their rules over a fault of a disk that stands in front of them.

ghost use Rattle.history_rules.specs.FaultLaws.{KeepsOver};

/// An entry keeps its rule over a fault of a disk that is put in front. A law.
pub fn keeps_over()
    ensures { KeepsOver }
{}
