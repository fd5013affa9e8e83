//! Parts of merged segments that arrive.

ghost use Rattle.std.specs.Prelude.{◌≡◌, ◌<◌, ◌≤◌, true, is_some, Some, IfSome, OnOk, OnErr, IsErrOf, IfErr};
ghost use Rattle.nrt_base.specs.Causes.{Rose};
ghost use Rattle.disk_model.specs.Disk.{Name, Content};
ghost use Rattle.file_names.specs.Names.{temp_name_of};
ghost use Rattle.file_deleter.specs.Holdings.{times};
ghost use Rattle.searcher_switch.specs.Node.{KeepsBytes};
ghost use Rattle.searcher_switch.specs.Appearing.{AppearsOnly};
ghost use Rattle.copy_state.specs.Meta.{IsMetaOf};
ghost use Rattle.copy_state.specs.States.{meta_in};
ghost use Rattle.copy_job.specs.Placing.{IsPlacingFault};
ghost use Rattle.copy_job.specs.Jobs.{with_part};
ghost use Rattle.replica_node.specs.Merges.{copy_at, copies_with};
ghost use Rattle.replica_node.specs.Sources.{IsSourced, HoldsOnly};
ghost use Rattle.replica_node.specs.Replica.{IsWholeReplica, AreStanding};

use crate::parts::ReplicaParts;
use copy_job::{JobFault, Part};
use disk_model::Dir;

/// Writes a part of a copy of a merged segment under its temporary name. After a refusal it is still missing.
pub fn arrived_copy<D: Dir>(
    parts: &mut ReplicaParts<D>,
    job: u64,
    part: Part,
) -> Result<(), JobFault>
    requires whole { IsWholeReplica D.cells parts.old }
    requires runs { is_some (copy_at job parts.old.copies.running) ≡ true }
    requires missing { IfSome (copy_at job parts.old.copies.running) (λ c.
        0 < times c.missing part.name) }
    requires wanted { IfSome (copy_at job parts.old.copies.running) (λ c.
        meta_in c.want.files part.name ≡ Some part.meta) }
    requires meta { IsMetaOf part.bytes part.meta }
    ensures whole { IsWholeReplica D.cells parts.new }
    ensures standing { AreStanding D.cells parts.old → AreStanding D.cells parts.new }
    ensures sourced { (source : Name → Content) → source part.name ≡ Some part.bytes
        → IsSourced source D.cells parts.old → IsSourced source D.cells parts.new }
    ensures held { HoldsOnly parts.old parts.new }
    ensures ok { OnOk result (IfSome (copy_at job parts.old.copies.running) (λ c.
        parts.new.copies ≡ record parts.old.copies {
          running = copies_with job (with_part c part.name) parts.old.copies.running;
        })) }
    ensures reads { OnOk result
        ((D.cells parts.new.dir (temp_name_of part.name job)).now ≡ Some part.bytes) }
    ensures err { OnErr result (parts.new.copies ≡ parts.old.copies) }
    ensures stays { KeepsBytes parts.old.files parts.new.files
        (D.cells parts.old.dir) (D.cells parts.new.dir) }
    ensures appears { AppearsOnly (λ q. q ≡ temp_name_of part.name job)
        (D.cells parts.old.dir) (D.cells parts.new.dir) }
    ensures fault { IfErr result IsPlacingFault }
    ensures failed { IsErrOf result JobFault.DirFailed
        → Rose (D.faults parts.old.dir) (D.faults parts.new.dir) }
    ensures later { D.faults parts.old.dir ≤ D.faults parts.new.dir }
    ensures others { parts.new ≡ record parts.old {
      dir = parts.new.dir;
      files = parts.new.files;
      copies = parts.new.copies;
    } }
{
    parts
        .copies
        .running
        .arrived(job, part, &mut parts.files, &mut parts.dir)
}
