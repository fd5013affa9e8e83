//! A merge in flight, by its number; and the end of one that is given up.

ghost use Rattle.std.specs.Prelude.{◌≡◌, ◌≤◌, Some, true, is_some};
ghost use Rattle.searcher_switch.specs.Appearing.{NoneAppears};
ghost use Rattle.index_primary.specs.Merges.{merge_of, merge_place, merges_without};
ghost use Rattle.index_primary.specs.Primary.{IsPrimary, KeepsHeldBytes};
ghost use Rattle.index_primary.specs.Calls.{DrawsOnly, HoldsNoNew};

use crate::parts::PrimaryParts;
use crate::states::Merging;
use disk_model::Dir;
use nrt_base::{List, SegNo};

/// The place of the merge of a number.
pub(crate) fn place_of(merges: &[Merging], seg: SegNo) -> usize
    ensures { result ≡ merge_place seg.0 merges.now }
{
    let mut i = 0;
    while i < merges.len() {
        if merges[i].task.seg.0 == seg.0 {
            return i;
        }
        i += 1;
    }
    i
}

/// The merge of a number.
#[tactic(auto, using(crate::proofs::MergeLists::merge_at))]
pub fn merge_in(merges: &[Merging], seg: SegNo) -> &Merging
    requires { is_some (merge_of seg.0 merges.now) ≡ true }
    ensures { Some result.now ≡ merge_of seg.0 merges.now }
{
    let at = place_of(merges, seg);
    &merges[at]
}

/// Takes the merge of a number out.
#[tactic(auto, using(crate::proofs::MergeLists::merge_at))]
pub fn take_merge(merges: &mut List<Merging>, seg: SegNo) -> Merging
    requires { is_some (merge_of seg.0 merges.old) ≡ true }
    ensures rest { merges.new ≡ merges_without seg.0 merges.old }
    ensures item { Some result ≡ merge_of seg.0 merges.old }
{
    let at = place_of(merges.as_slice(), seg);
    merges.remove(at)
}

/// The merge has ended: what it held is given back, and its inputs can be chosen again.
pub fn abandon<D: Dir>(parts: &mut PrimaryParts<D>, seg: SegNo)
    requires whole { IsPrimary D.cells parts.old }
    requires there { is_some (merge_of seg.0 parts.old.merges) ≡ true }
    ensures merges { parts.new.merges ≡ merges_without seg.0 parts.old.merges }
    ensures others { parts.new ≡ record parts.old {
      dir = parts.new.dir;
      files = parts.new.files;
      merges = parts.new.merges;
    } }
    ensures stays { KeepsHeldBytes D.cells parts.old parts.new }
    ensures no_new { HoldsNoNew parts.old parts.new }
    ensures drawn { DrawsOnly parts.old parts.new }
    ensures appears { NoneAppears (D.cells parts.old.dir) (D.cells parts.new.dir) }
    ensures later { D.faults parts.old.dir ≤ D.faults parts.new.dir }
    ensures whole { IsPrimary D.cells parts.new }
{
    let merging = take_merge(&mut parts.merges, seg);
    parts
        .files
        .release(merging.names.as_slice(), &mut parts.dir);
    drop(merging);
}
