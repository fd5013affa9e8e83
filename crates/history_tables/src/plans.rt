//! The faults that are planned at nodes.

ghost use Rattle.std.specs.Prelude.{◌≡◌, ◌∷◌, [], ℕ, false};
ghost use Rattle.history_rules.specs.Nodes.{Past};
ghost use Rattle.history_tables.specs.PlanRows.{PlansTell};

use history_rules::{Event, FaultKind, FaultPlan};
use nrt_base::At;

/// Which kinds of faults are planned at a node.
#[derive(Clone, Copy, Debug, PartialEq, Eq)]
pub struct Plans {
    pub link: bool,
    pub damage: bool,
    pub disk: bool,
    pub stop: bool,
}

impl Plans {
    /// Before any entry.
    pub fn first() -> Self
        ensures { (n : ℕ) → PlansTell [] n result }
    {
        Plans {
            link: false,
            damage: false,
            disk: false,
            stop: false,
        }
    }

    /// After one more entry.
    pub fn after(self, n: u8, at: At, event: &Event) -> Self
        ensures { (past : Past) → PlansTell past n self
            → PlansTell (record { at = at; event = event.now } ∷ past) n result }
    {
        match event {
            Event::Planned { n: m, plan } => {
                if m.0 == n {
                    match plan {
                        FaultPlan::Link(_) => Plans { link: true, ..self },
                        FaultPlan::Damage(_, _) => Plans {
                            damage: true,
                            ..self
                        },
                        FaultPlan::Disk(_) => Plans { disk: true, ..self },
                        FaultPlan::Stop(_) => Plans { stop: true, ..self },
                    }
                } else {
                    self
                }
            }
            Event::Crashed { n: m } => { if m.0 == n { Plans::none() } else { self } }
            Event::Fault { n: m, kind } => {
                if m.0 == n {
                    match kind {
                        FaultKind::Link => Plans {
                            link: false,
                            ..self
                        },
                        FaultKind::Damage => Plans {
                            damage: false,
                            ..self
                        },
                        FaultKind::Disk => Plans {
                            disk: false,
                            ..self
                        },
                        FaultKind::Stop => self,
                    }
                } else {
                    self
                }
            }
            Event::Accepted { .. }
            | Event::Publishing
            | Event::Published { .. }
            | Event::Copying { .. }
            | Event::Switched { .. }
            | Event::Copied { .. }
            | Event::Settling { .. }
            | Event::Settled { .. }
            | Event::Opened { .. }
            | Event::Asking { .. }
            | Event::Answered { .. }
            | Event::Closed { .. }
            | Event::Committing { .. }
            | Event::Committed { .. }
            | Event::Reopened { .. }
            | Event::Promoted { .. }
            | Event::Merging { .. }
            | Event::Drained { .. }
            | Event::Files { .. }
            | Event::Refused { .. } => self,
        }
    }

    fn none() -> Self
        ensures { result ≡ record { link = false; damage = false; disk = false; stop = false } }
    {
        Plans {
            link: false,
            damage: false,
            disk: false,
            stop: false,
        }
    }
}
