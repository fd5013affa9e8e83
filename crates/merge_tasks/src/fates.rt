//! The faults that are planned for the files handed out to each node.

ghost use Rattle.std.specs.Prelude.{◌≡◌, ◌<◌, ◌+◌, ◌-◌, ◌==◌, [], ℕ, IfOk, length, get_or, if◌then◌else◌};
ghost use Rattle.merge_tasks.specs.Fates.{PlansShow, fate_by, file_plans_by, file_plans_inside, no_file_plans, one_less, replanned, used_up};

use history_book::{Fate, Inner};
use history_rules::{Event, FaultKind, FaultPlan};
use nrt_base::NodeNo;
use std::alloc::{AllocError, Global};

/// The faults that are planned for the files of a node: how many files are to be handed out to it, from the next on, up to the one
/// whose link fails, and up to the one that is damaged, 0 where none is planned; and at which byte that is.
#[derive(Clone, Copy, Debug, PartialEq, Eq)]
pub struct FilePlans {
    pub link: u32,
    pub damage: u32,
    pub byte: u32,
}

impl FilePlans {
    fn none() -> Self
        ensures { result ≡ no_file_plans }
    {
        FilePlans {
            link: 0,
            damage: 0,
            byte: 0,
        }
    }

    /// What becomes of the next file.
    pub fn fate(self) -> Fate
        ensures { result ≡ fate_by self }
    {
        if self.link == 1 {
            Fate::Fail
        } else if self.damage == 1 {
            Fate::Damage(self.byte)
        } else {
            Fate::Whole
        }
    }

    // with a new plan in the place of the one of its kind
    fn replanned(self, plan: &FaultPlan) -> Self
        ensures { result ≡ replanned plan.now self }
    {
        match plan {
            FaultPlan::Link(k) => FilePlans { link: *k, ..self },
            FaultPlan::Damage(k, byte) => FilePlans {
                damage: *k,
                byte: *byte,
                ..self
            },
            FaultPlan::Disk(_) | FaultPlan::Stop(_) => self,
        }
    }

    // without the one that is met
    fn used_up(self, kind: &FaultKind) -> Self
        ensures { result ≡ used_up kind.now self }
    {
        match kind {
            FaultKind::Link => FilePlans { link: 0, ..self },
            FaultKind::Damage => FilePlans { damage: 0, ..self },
            FaultKind::Disk | FaultKind::Stop => self,
        }
    }

    // with one file less to come
    fn one_less(self) -> Self
        ensures { result ≡ one_less self }
    {
        FilePlans {
            link: self.link.saturating_sub(1),
            damage: self.damage.saturating_sub(1),
            ..self
        }
    }
}

/// A table of so many nodes, before any entry.
pub(crate) fn first_plans(alloc: Global, nodes: u8) -> Result<Vec<FilePlans>, AllocError>
    ensures { IfOk result (λ rows. PlansShow nodes [] rows.items) }
{
    let mut rows = Vec::new(alloc);
    for next in 0..nodes as usize + 1 {
        rows.push(FilePlans::none())?;
        prove!(next <= nodes as usize);
    }
    Ok(rows)
}

/// The plans for the files of a node.
pub(crate) fn plans_of(rows: &Vec<FilePlans>, n: NodeNo) -> FilePlans
    ensures { result ≡ get_or rows.now.items n.0 no_file_plans }
{
    let i = n.0 as usize;
    if i < rows.len() {
        rows[i]
    } else {
        FilePlans::none()
    }
}

// The plans for the files of a node are these.
fn set_plans(rows: &mut Vec<FilePlans>, n: NodeNo, plans: FilePlans)
    ensures count { length rows.new.items ≡ length rows.old.items }
    ensures rows { (m : ℕ) → m < length rows.old.items → get_or rows.new.items m no_file_plans
        ≡ (if n.0 == m then plans else get_or rows.old.items m no_file_plans) }
{
    let i = n.0 as usize;
    if i < rows.len() {
        rows[i] = plans;
    }
}

/// The table after a printed entry.
pub(crate) fn step_plans(rows: &mut Vec<FilePlans>, event: &Event)
    ensures count { length rows.new.items ≡ length rows.old.items }
    ensures rows { (m : ℕ) → m < length rows.old.items → get_or rows.new.items m no_file_plans
        ≡ file_plans_by m event.now (get_or rows.old.items m no_file_plans) }
{
    match event {
        Event::Planned { n, plan } => {
            let now = plans_of(rows, *n).replanned(plan);
            set_plans(rows, *n, now);
        }
        Event::Crashed { n } => set_plans(rows, *n, FilePlans::none()),
        Event::Fault { n, kind } => {
            let now = plans_of(rows, *n).used_up(kind);
            set_plans(rows, *n, now);
        }
        Event::Accepted { .. }
        | Event::Publishing
        | Event::Published { .. }
        | Event::Copying { .. }
        | Event::Switched { .. }
        | Event::Copied { .. }
        | Event::Settling { .. }
        | Event::Settled { .. }
        | Event::Opened { .. }
        | Event::Asking { .. }
        | Event::Answered { .. }
        | Event::Closed { .. }
        | Event::Committing { .. }
        | Event::Committed { .. }
        | Event::Reopened { .. }
        | Event::Promoted { .. }
        | Event::Merging { .. }
        | Event::Drained { .. }
        | Event::Files { .. }
        | Event::Refused { .. } => {}
    }
}

/// The table after an entry of inner work.
pub(crate) fn step_inside(rows: &mut Vec<FilePlans>, inner: &Inner)
    ensures count { length rows.new.items ≡ length rows.old.items }
    ensures rows { (m : ℕ) → m < length rows.old.items → get_or rows.new.items m no_file_plans
        ≡ file_plans_inside m inner.now (get_or rows.old.items m no_file_plans) }
{
    match inner {
        Inner::FileOut { node, .. } => {
            let now = plans_of(rows, *node).one_less();
            set_plans(rows, *node, now);
        }
        Inner::FlushOut { .. }
        | Inner::FlushEnd { .. }
        | Inner::MergeOut { .. }
        | Inner::MergeEnd { .. }
        | Inner::JobBegun { .. }
        | Inner::JobEnd { .. }
        | Inner::TaskOut { .. }
        | Inner::TaskEnd { .. } => {}
    }
}
