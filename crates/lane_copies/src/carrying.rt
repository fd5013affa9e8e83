//! Files, carried over a link that passes the gate before each chunk.

ghost use Rattle.std.specs.Prelude.{◌≡◌, ◌≢◌, IfOk, OnOk};
ghost use Rattle.codec_frame.specs.Checking.{HasFooter};
ghost use Rattle.copy_state.specs.Meta.{IsMetaOf};
ghost use Rattle.cluster_state.specs.DueFaults.{ArrivesBy};

use bytes::Bytes;
use cluster_nodes::FileTask;
use cluster_site::{Gate, Place};
use copy_job::{JobFault, Part, copy_file};
use file_names::FileName;
use link_model::{Link, LinkFault, MemLink};
use nrt_base::{At, LineNo, NoMemory, NodeNo};
use std::alloc::{AllocError, Global};
use wire_link::WireLink;

/// A link that passes the gate before each chunk, and is else the link that it wraps.
#[derive(Drop)]
pub struct GateLink<'g, G: Gate, L: Link> {
    link: L,
    gate: &'g G,
    line: LineNo,
    node: NodeNo,
    name: FileName,
    /// How many chunks were asked for.
    chunks: usize,
}

impl<'g, G: Gate, L: Link> Link for GateLink<'g, G, L> {
    ghost begun = { λ l. L.begun l.link };

    ghost altered = { λ l. L.altered l.link };

    ghost faults = { λ l. L.faults l.link };

    ghost damages = { λ l. L.damages l.link };

    ghost fate = { λ l. L.fate l.link };

    fn begin(&mut self, file: &Bytes) -> Result<(), LinkFault> {
        self.link.begin(file)
    }

    fn fetch(&mut self, at: usize, len: usize) -> Result<Bytes, LinkFault> {
        self.gate
            .pass(Place::Chunk(self.line, self.node, self.name, self.chunks));
        self.chunks = self.chunks.wrapping_add(1);
        self.link.fetch(at, len)
    }

    fn faults(&self) -> u64 {
        self.link.faults()
    }

    fn damages(&self) -> u64 {
        self.link.damages()
    }
}

// What kept a file back, where that was not want of memory.
fn but_memory(fault: JobFault) -> Result<JobFault, NoMemory>
    ensures same { IfOk result (λ kept. kept ≡ fault) }
    ensures other { OnOk result (fault ≢ JobFault.Memory) }
{
    match fault {
        JobFault::Memory => Err(AllocError),
        JobFault::LinkFailed => Ok(JobFault::LinkFailed),
        JobFault::Damaged { name, want, found } => Ok(JobFault::Damaged { name, want, found }),
        JobFault::DirFailed => Ok(JobFault::DirFailed),
        JobFault::NameClash { name, ours, theirs } => {
            Ok(JobFault::NameClash { name, ours, theirs })
        }
    }
}

/// Carries a file to a node in the frames that a peer would read, over a link that does to it what becomes of it. It fails when out of
/// memory.
pub fn carry<G: Gate>(
    alloc: Global,
    gate: &G,
    at: At,
    node: NodeNo,
    file: &FileTask,
) -> Result<Result<Part, JobFault>, NoMemory>
    requires meta { IsMetaOf file.now.source file.now.meta }
    requires footer { HasFooter file.now.source }
    ensures { IfOk result (ArrivesBy file.now) }
{
    let memory = MemLink::new(alloc).with_fate(file.fate);
    let mut link = GateLink {
        link: WireLink::new(alloc, memory, file.name),
        gate,
        line: at.line,
        node,
        name: file.name,
        chunks: 0,
    };
    match copy_file(alloc, &mut link, &file.source, &file.name, &file.meta) {
        Ok(part) => Ok(Ok(part)),
        Err(fault) => {
            let kept = but_memory(fault)?;
            Ok(Err(kept))
        }
    }
}
