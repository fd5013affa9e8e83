//! Why a line is refused, and which faults are planned, as words.

ghost use Rattle.std.specs.Prelude.{◌≡◌, ◌++◌, ◌∷◌, [], OnOk, codes};
ghost use Rattle.report_text.specs.Texts.{AddsWords, kind_text, cause_words};
ghost use Rattle.history_rules.specs.Faults.{plan_words};

use crate::words::{push_with_numbers, push_word};
use file_names::FileName;
use history_rules::{Cause, FaultKind, FaultPlan};
use nrt_base::{NoMemory, NodeNo};
use std::alloc::Global;

pub fn push_cause(out: &mut Vec<u8>, alloc: Global, cause: &Cause) -> Result<(), NoMemory>
    ensures { OnOk result (AddsWords out.old.items out.new.items (cause_words cause.now)) }
{
    match cause {
        Cause::Down => push_word(out, b"down"),
        Cause::Primary => push_word(out, b"primary"),
        Cause::NoPrimary => push_word(out, b"no-primary"),
        Cause::PrimaryUp => push_word(out, b"primary-up"),
        Cause::ForceLow(newest) => push_with_numbers(out, alloc, b"force-low", &[newest.0]),
        Cause::NoTicket => push_word(out, b"no-ticket"),
        Cause::Lost => push_word(out, b"lost"),
        Cause::Cancelled(v) => push_with_numbers(out, alloc, b"cancelled", &[v.0]),
        Cause::LinkFault => push_word(out, b"link-fault"),
        Cause::Damaged(name) => push_damaged(out, name),
        Cause::DiskFault => push_word(out, b"disk-fault"),
        Cause::Nothing => push_word(out, b"none"),
        Cause::Up => push_word(out, b"up"),
        Cause::NameUsed => push_word(out, b"name-used"),
        Cause::NamesSpent => push_word(out, b"names-spent"),
        Cause::TooManySegments => push_word(out, b"too-many-segments"),
        Cause::ForceHigh => push_word(out, b"force-high"),
    }
}

fn push_damaged(out: &mut Vec<u8>, name: &FileName) -> Result<(), NoMemory>
    ensures { OnOk result (AddsWords out.old.items out.new.items
        (codes "damaged" ∷ name.now ∷ [])) }
{
    push_word(out, b"damaged")?;
    push_word(out, name.as_slice())
}

fn kind_text(kind: FaultKind) -> &'static [u8]
    ensures { result.now ≡ kind_text kind }
{
    match kind {
        FaultKind::Link => b"link",
        FaultKind::Damage => b"damage",
        FaultKind::Disk => b"disk",
        FaultKind::Stop => b"stop",
    }
}

pub fn push_kind(out: &mut Vec<u8>, kind: FaultKind) -> Result<(), NoMemory>
    ensures { OnOk result (out.new.items ≡ out.old.items ++ 32 ∷ kind_text kind) }
{
    push_word(out, kind_text(kind))
}

pub fn push_plan(
    out: &mut Vec<u8>,
    alloc: Global,
    n: NodeNo,
    plan: FaultPlan,
) -> Result<(), NoMemory>
    ensures { OnOk result (AddsWords out.old.items out.new.items (plan_words n.0 plan)) }
{
    let n = u64::from(n.0);
    match plan {
        FaultPlan::Link(k) => push_with_numbers(out, alloc, b"link", &[n, u64::from(k)]),
        FaultPlan::Damage(k, at) => push_with_numbers(
            out,
            alloc,
            b"damage",
            &[n, u64::from(k), u64::from(at)],
        ),
        FaultPlan::Disk(k) => push_with_numbers(out, alloc, b"disk", &[n, u64::from(k)]),
        FaultPlan::Stop(k) => push_with_numbers(out, alloc, b"stop", &[n, u64::from(k)]),
    }
}
