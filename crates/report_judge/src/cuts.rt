//! Whether a publish had a put to take when it started.

ghost use Rattle.std.specs.Prelude.{◌≡◌, ◌∷◌, if◌then◌else◌, reverse, OnOk};
ghost use Rattle.nrt_base.specs.declared.numbers.At.{At};
ghost use Rattle.history_rules.specs.Lines.{same_at};
ghost use Rattle.history_facts.specs.Generations.{ShowsGeneration};
ghost use Rattle.report_judge.specs.CutNotes.{cut_noted, ShowsCuts};

use history_facts::{Generation, is_start};
use history_rules::Entry;
use nrt_base::{At, NoMemory};
use serving_rules::cut_has_put;
use std::collections::BTreeMap;

/// Whether the cut had a put when a line started, of each line that has.
pub type Cuts = BTreeMap<(u8, u32), bool>;

fn set_cut(cuts: &mut Cuts, at: At, has_put: bool) -> Result<(), NoMemory>
    ensures { OnOk result ((a : At) → cut_noted cuts.new a ≡
        (if same_at at a then has_put else cut_noted cuts.old a)) }
{
    cuts.insert((at.lane.0, at.line.0), has_put)?;
    Ok(())
}

/// Whether the cut had a put when the line started.
pub fn had_put(cuts: &Cuts, at: At) -> bool
    ensures { result ≡ cut_noted cuts.now at }
{
    match cuts.get(&(at.lane.0, at.line.0)) {
        Some(has_put) => *has_put,
        None => false,
    }
}

/// Takes one more entry in, behind these.
#[tactic(auto, using(crate::proofs::CutLaws::cuts_still, crate::proofs::CutLaws::cuts_next))]
pub fn note_cut(
    cuts: &mut Cuts,
    generation: &Generation,
    before: &[Entry],
    entry: &Entry,
) -> Result<(), NoMemory>
    requires shown { ShowsGeneration (reverse before.now) generation.now }
    requires cuts { ShowsCuts (reverse before.now) cuts.old }
    ensures { OnOk result (ShowsCuts (entry.now ∷ reverse before.now) cuts.new) }
{
    if !is_start(&entry.event) {
        return Ok(());
    }
    set_cut(cuts, entry.at, cut_has_put(generation, before))
}
