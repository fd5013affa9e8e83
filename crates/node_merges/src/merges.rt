//! The steps of a merge at the primary.

ghost use Rattle.std.specs.Prelude.{◌≡◌, ◌≤◌, IfOk, Some};
ghost use Rattle.index_primary.specs.States.{out_of, states_without};
ghost use Rattle.cluster_nodes.specs.Given.{IsMadeFor};
ghost use Rattle.cluster_nodes.specs.Places.{place_of, IsSlot, HasPrimary};
ghost use Rattle.cluster_nodes.specs.Went.{ByWent};
ghost use Rattle.node_merges.specs.MergeChanges.{AsksMerge, ReadiesMerge, MayCut, CutsMerge, GivesUpMerge};
ghost use Rattle.node_merges.specs.MergePlaces.{IsPrimaryIn, MovesPrimary, AreSizesAt};

use cluster_nodes::{Node, NodePlace, Primary, PublishFault, Went, is_failed, put, take_primary};
use copy_state::CopyState;
use disk_model::Dir;
use nrt_base::{List, NoMemory, NodeNo, SegNo};
use seg_merge::{MergeTask, Merged};
use std::alloc::Global;

// The sizes of the segments of the primary that is there.
fn sizes_at<D: Dir + Drop>(
    alloc: Global,
    place: &NodePlace<D>,
) -> Result<List<Option<u32>>, NoMemory>
    requires { HasPrimary (Some place.now) }
    ensures { IfOk result (AreSizesAt (Some place.now)) }
{
    match &place.node {
        Node::Primary(primary) => primary.sizes(alloc),
        Node::Replica(_) | Node::Down(_) => unreachable!(),
    }
}

/// The sizes of the segments of the primary in this place, of which merges are chosen.
pub fn sizes_in<D: Dir + Drop>(
    alloc: Global,
    places: &Vec<Option<NodePlace<D>>>,
    p: NodeNo,
) -> Result<List<Option<u32>>, NoMemory>
    requires slot { IsSlot places.now.items p.0 }
    requires primary { HasPrimary (place_of places.now.items p.0) }
    ensures { IfOk result (AreSizesAt (place_of places.now.items p.0)) }
{
    match &places[p.0 as usize - 1] {
        Some(place) => sizes_at(alloc, place),
        None => unreachable!(),
    }
}

/// Asks the primary in this place for a merge.
pub fn ask_in<D: Dir + Drop>(
    alloc: Global,
    places: &mut Vec<Option<NodePlace<D>>>,
    p: NodeNo,
    factor: u32,
) -> Result<Option<MergeTask>, PublishFault>
    requires slot { IsSlot places.old.items p.0 }
    requires primary { HasPrimary (place_of places.old.items p.0) }
    requires factor { 2 ≤ factor }
    ensures { MovesPrimary (λ q r. AsksMerge D.cells factor q r result) p.0
        places.old.items places.new.items }
{
    let (mut primary, held) = take_primary(places, p);
    let asked = primary.merge_start(alloc, factor);
    let node = Node::Primary(primary);
    put(places, p, NodePlace { node, held });
    asked
}

// Writes the files of a merged segment, and answers a copy state that names them. Where the disk fails the merge has ended.
fn ready<D: Dir + Drop>(
    alloc: Global,
    primary: &mut Primary<D>,
    merged: Merged,
) -> Result<Went<CopyState>, NoMemory>
    requires { IsMadeFor primary.old merged }
    ensures { IfOk result (ByWent (λ state. ReadiesMerge D.cells merged state primary.old primary.new)
        (GivesUpMerge D.cells merged.files.seg (λ states. states) primary.old primary.new)) }
{
    match primary.merge_ready(alloc, merged) {
        Ok(state) => Ok(Went::Done(state)),
        Err(fault) => {
            is_failed(fault)?;
            Ok(Went::Failed)
        }
    }
}

/// Writes the files of a merged segment at the primary in this place, and answers a copy state that names them. Where the disk fails the
/// merge has ended.
pub fn ready_in<D: Dir + Drop>(
    alloc: Global,
    places: &mut Vec<Option<NodePlace<D>>>,
    p: NodeNo,
    merged: Merged,
) -> Result<Went<CopyState>, NoMemory>
    requires { IsPrimaryIn (λ q. IsMadeFor q merged) p.0 places.old.items }
    ensures { IfOk result (ByWent (λ state. MovesPrimary (ReadiesMerge D.cells merged state) p.0
        places.old.items places.new.items)
        (MovesPrimary (GivesUpMerge D.cells merged.files.seg (λ states. states)) p.0
        places.old.items places.new.items)) }
{
    let (mut primary, held) = take_primary(places, p);
    let readied = ready(alloc, &mut primary, merged);
    let node = Node::Primary(primary);
    put(places, p, NodePlace { node, held });
    readied
}

// Cuts a merge over, and gives its copy state back. Where the disk fails the merge has ended.
fn cut_over<D: Dir + Drop>(
    alloc: Global,
    primary: &mut Primary<D>,
    seg: SegNo,
    state: CopyState,
) -> Result<Went<()>, NoMemory>
    requires { MayCut seg state primary.old }
    ensures { IfOk result (ByWent (λ done. CutsMerge D.cells seg state primary.old primary.new)
        (GivesUpMerge D.cells seg (states_without (out_of state)) primary.old primary.new)) }
{
    match primary.merge_cut(alloc, seg) {
        Ok(()) => {
            primary.give_back(state);
            Ok(Went::Done(()))
        }
        Err(fault) => {
            is_failed(fault)?;
            primary.give_back(state);
            Ok(Went::Failed)
        }
    }
}

/// Cuts a merge over at the primary in this place, and gives its copy state back. Where the disk fails the merge has ended.
pub fn cut_in<D: Dir + Drop>(
    alloc: Global,
    places: &mut Vec<Option<NodePlace<D>>>,
    p: NodeNo,
    seg: SegNo,
    state: CopyState,
) -> Result<Went<()>, NoMemory>
    requires { IsPrimaryIn (MayCut seg state) p.0 places.old.items }
    ensures { IfOk result (ByWent (λ done. MovesPrimary (CutsMerge D.cells seg state) p.0
        places.old.items places.new.items)
        (MovesPrimary (GivesUpMerge D.cells seg (states_without (out_of state))) p.0
        places.old.items places.new.items)) }
{
    let (mut primary, held) = take_primary(places, p);
    let cut = cut_over(alloc, &mut primary, seg, state);
    let node = Node::Primary(primary);
    put(places, p, NodePlace { node, held });
    cut
}
