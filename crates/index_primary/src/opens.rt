//! A primary opens on the infos of a point.

ghost use Rattle.std.specs.Prelude.{◌≡◌, ◌<◌, List, [], None, OnOk, Ok};
ghost use Rattle.disk_model.specs.Disk.{reads_of};
ghost use Rattle.copy_state.specs.States.{AreShortNames};
ghost use Rattle.searcher_switch.specs.Node.{IsWholeNode};
ghost use Rattle.searcher_switch.specs.Standing.{IsStanding};
ghost use Rattle.index_primary.specs.Primary.{IsPrimary};
ghost use Rattle.index_primary.specs.Held.{IsHeld, AreUndrawn, AreNumbered};
ghost use Rattle.index_primary.specs.Calls.{SearchesWriter};
ghost use Rattle.searcher_switch.specs.Searching.{searcher_names};

use crate::parts::PrimaryParts;
use disk_model::Dir;
use nrt_base::{List, NoMemory, Share};
use segment_infos::files_of;
use std::alloc::Global;

/// The writer's infos are those of the searchers' point: their files are held once more, and they are searched from
/// now on.
pub fn open<D: Dir>(alloc: Global, parts: &mut PrimaryParts<D>) -> Result<(), NoMemory>
    requires node { IsWholeNode (D.cells parts.old.dir) parts.old.files
        (searcher_names parts.old.searchers) parts.old.commits }
    requires standing { IsStanding (reads_of (D.cells parts.old.dir)) parts.old.commits }
    requires held { IsHeld (reads_of (D.cells parts.old.dir)) parts.old.infos parts.old.segs
        parts.old.searchers.point.names }
    requires undrawn { AreUndrawn parts.old.files parts.old.infos [] [] }
    requires numbered { AreNumbered parts.old.infos [] }
    requires states { parts.old.states ≡ [] }
    requires merges { parts.old.merges ≡ [] }
    requires publish { parts.old.publish ≡ None }
    requires completed { AreShortNames parts.old.completed }
    ensures whole { OnOk result (IsPrimary D.cells parts.new) }
    ensures point { OnOk result (SearchesWriter parts.old parts.new) }
    ensures others { parts.new ≡ record parts.old {
      files = parts.new.files;
      searchers = parts.new.searchers;
      point_infos = parts.new.point_infos;
      names = parts.new.names;
    } }
{
    let names = List::from_vec(files_of(alloc, &parts.infos)?);
    let point_names = names.share(alloc)?;
    let readers = parts.segs.share(alloc)?;
    let point_infos = parts.infos.share(alloc)?;
    parts.files.hold_there(names.as_slice(), &parts.dir)?;
    let version = point_infos.version;
    let _former = parts.searchers.replace(version, point_names, readers);
    parts.point_infos = point_infos;
    parts.names = names;
    Ok(())
}
