//! A replica that becomes the primary of a new generation.

ghost use Rattle.std.specs.Prelude.{◌≡◌, ◌≤◌, ◌<◌, ◌^◌, [], OnOk, IfOk};
ghost use Rattle.disk_model.specs.Disk.{reads_of};
ghost use Rattle.searcher_switch.specs.Searching.{searcher_names};
ghost use Rattle.searcher_switch.specs.Node.{IsWholeNode};
ghost use Rattle.searcher_switch.specs.Standing.{IsStanding};
ghost use Rattle.index_primary.specs.Held.{IsHeld, AreUndrawn, AreNumbered};
ghost use Rattle.index_primary.specs.Primary.{IsPrimary};
ghost use Rattle.index_primary.specs.Calls.{IsOpenedOn};
ghost use Rattle.promotion.specs.declared.fault.PromoteFault.TheVariants.{Memory};
ghost use Rattle.promotion.specs.Generations.{promoted_infos};
ghost use Rattle.cluster_nodes.specs.Promoting.{CanPromote, PromotesTo, CanPromoteIn, PromotesIn};

use crate::nodes::{Node, NodePlace, put};
use crate::transfers::take_replica;
use disk_model::Dir;
use index_primary::Primary;
use nrt_base::{Gen, NoMemory, NodeNo, Version};
use promotion::{PromoteFault, open_generation};
use replica_node::{NodeParts, Replica};
use segment_infos::Infos;
use std::alloc::{AllocError, Global};

// The fault that says "out of memory".
fn memory(fault: PromoteFault) -> NoMemory
    requires { fault ≡ Memory }
{
    match fault {
        PromoteFault::Memory => AllocError,
        PromoteFault::GenNotNewer(_) => unreachable!(),
        PromoteFault::ForceHigh => unreachable!(),
    }
}

// The infos of a generation that may open.
fn opened(alloc: Global, infos: &Infos, generation: Gen, forced: Version) -> Result<Infos, NoMemory>
    requires newer { infos.now.generation.0 < generation.0 }
    requires above { infos.now.version.0 ≤ forced.0 }
    requires low { forced.0 < 2 ^ 62 }
    ensures { IfOk result (λ opened. opened ≡ promoted_infos infos.now generation forced) }
{
    match open_generation(alloc, infos, generation, forced) {
        Ok(opened) => Ok(opened),
        Err(fault) => Err(memory(fault)),
    }
}

// The primary of these parts, which goes on from these infos.
fn primary_of<D: Dir + Drop>(
    alloc: Global,
    parts: NodeParts<D>,
    infos: Infos,
) -> Result<Primary<D>, NoMemory>
    requires node { IsWholeNode (D.cells parts.dir) parts.files
        (searcher_names parts.searchers) parts.commits }
    requires standing { IsStanding (reads_of (D.cells parts.dir)) parts.commits }
    requires held { IsHeld (reads_of (D.cells parts.dir)) infos parts.segs
        parts.searchers.point.names }
    requires undrawn { AreUndrawn parts.files infos [] [] }
    requires numbered { AreNumbered infos [] }
    ensures whole { IfOk result (IsPrimary D.cells) }
    ensures opened { IfOk result (IsOpenedOn parts.dir parts.searchers parts.commits infos parts.segs) }
{
    let NodeParts {
        dir,
        files,
        searchers,
        commits,
        infos: _,
        segs,
    } = parts;
    Primary::from_parts(alloc, dir, files, searchers, commits, infos, segs)
}

// The primary that a replica becomes.
fn promoted<D: Dir + Drop>(
    alloc: Global,
    replica: Replica<D>,
    generation: Gen,
    forced: Version,
) -> Result<Primary<D>, NoMemory>
    requires { CanPromote D.cells generation forced replica }
    ensures { IfOk result (PromotesTo D.cells generation forced replica) }
{
    let parts = replica.take_apart();
    match opened(alloc, &parts.infos, generation, forced) {
        Ok(infos) => primary_of(alloc, parts, infos),
        Err(fault) => {
            drop(parts);
            Err(fault)
        }
    }
}

/// Promotes the replica in this place: it is the primary of this generation, at one version above the forced one.
pub fn promote_in<D: Dir + Drop>(
    alloc: Global,
    places: &mut Vec<Option<NodePlace<D>>>,
    n: NodeNo,
    generation: Gen,
    forced: Version,
) -> Result<(), NoMemory>
    requires { CanPromoteIn D.cells generation forced n.0 places.old.items }
    ensures { OnOk result (PromotesIn D.cells generation forced n.0
        places.old.items places.new.items) }
{
    let (replica, held) = take_replica(places, n);
    match promoted(alloc, replica, generation, forced) {
        Ok(primary) => {
            let node = Node::Primary(primary);
            put(places, n, NodePlace { node, held });
            Ok(())
        }
        Err(fault) => {
            drop(held);
            Err(fault)
        }
    }
}
