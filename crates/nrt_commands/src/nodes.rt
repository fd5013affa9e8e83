//! The commands that write what a script leaves at a node: the image of its directory, or the frames of a copy to it.

ghost use Rattle.std.specs.Prelude.{◌≡◌, ◌≢◌, ◌≤◌, ◌<◌, ◌^◌, ◌-◌, ℕ, List, length, IsSome, IfOk, MatchOption};
ghost use Rattle.std.specs.List.{All};
ghost use Rattle.nrt_base.specs.Causes.{Rose};
ghost use Rattle.disk_model.specs.Disk.{reads_of};
ghost use Rattle.disk_memory.specs.Memory.{cells_in};
ghost use Rattle.copy_state.specs.States.{IsCopyState};
ghost use Rattle.history_rules.specs.Nodes.{IsNode};
ghost use Rattle.script_serving.specs.Form.{IsInForm};
ghost use Rattle.script_text.specs.Grammar.{SpellsScript};
ghost use Rattle.stream_commands.specs.Reads.{TakesWithin, TakesMore, longest};
ghost use Rattle.stream_commands.specs.Numbered.{AreNameAndNumber};
ghost use Rattle.nrt_commands.specs.NodeTexts.{asking_word, AreCopyFrames, IsNodeImage, IsNodeCopy, HasNoCopy, IsNodeText, HasNoText, IsNodeAnswer, AnswersNode};

use cluster_copies::{Sending, into_send};
use cluster_run::{Gate, run_script};
use disk_memory::MemDir;
use index_check::{image_of, read_files};
use nrt_base::{NoMemory, NodeNo};
use nrt_streams::{Arg, Sink, Source};
use script_serving::Script;
use std::alloc::Global;
use std::sync::Wait;
use std::thread::Threads;
use stream_commands::{ReadEnd, Status, read_all, read_script, write_all};
use wire_link::frames_of;

/// What is written of a node.
#[derive(Clone, Copy, Debug, PartialEq, Eq)]
pub enum NodeText {
    /// The image of its directory.
    Image,
    /// The frames that a copy of the newest point to it takes.
    Frames,
}

/// The image of the directory that a run of the script leaves at a node.
fn run_image<R: Threads + Wait + Sync, G: Gate + Sync>(
    rt: &R,
    alloc: Global,
    gate: &G,
    script: &Script,
    n: NodeNo,
) -> Result<Vec<u8>, NoMemory>
    requires form { IsInForm script.now }
    requires node { IsNode script.now.nodes n.0 }
    ensures { IfOk result (λ image. (bytes : List ℕ)
        → SpellsScript bytes script.now → IsNodeImage bytes n.0 image.items) }
{
    let cluster = run_script(rt, alloc, gate, script)?;
    let mut dir = cluster.into_dir(n);
    let image = image_of(alloc, &mut dir)?;
    Ok(image)
}

/// The frames of what is sent.
fn frames_of_copy(alloc: Global, sending: Sending<MemDir>) -> Result<Vec<u8>, NoMemory>
    requires copy { IsCopyState sending.state }
    requires there { All (λ q. IsSome (reads_of (cells_in sending.dir) q)) sending.lacking.items }
    ensures { IfOk result (λ text.
        AreCopyFrames sending.state sending.lacking.items sending.dir text.items) }
{
    let Sending {
        state,
        lacking,
        mut dir,
    } = sending;
    let files = read_files(alloc, &mut dir, lacking.as_slice())?;
    let text = frames_of(alloc, &state, files.as_slice())?;
    Ok(text)
}

/// The frames that a copy to a node takes, as a run of the script leaves them.
fn run_copy<R: Threads + Wait + Sync, G: Gate + Sync>(
    rt: &R,
    alloc: Global,
    gate: &G,
    script: &Script,
    n: NodeNo,
) -> Result<Option<Vec<u8>>, NoMemory>
    requires form { IsInForm script.now }
    requires node { IsNode script.now.nodes n.0 }
    ensures { IfOk result (λ sent. (bytes : List ℕ) → SpellsScript bytes script.now
        → MatchOption sent (HasNoCopy bytes n.0) (λ text. IsNodeCopy bytes n.0 text.items)) }
{
    let cluster = run_script(rt, alloc, gate, script)?;
    let sending = into_send(alloc, cluster.into_state(), n)?;
    match sending {
        Some(sending) => {
            let text = frames_of_copy(alloc, sending)?;
            Ok(Some(text))
        }
        None => Ok(None),
    }
}

/// What is written of a node, where there is such.
fn node_text<R: Threads + Wait + Sync, G: Gate + Sync>(
    rt: &R,
    alloc: Global,
    gate: &G,
    kind: NodeText,
    script: &Script,
    n: NodeNo,
) -> Result<Option<Vec<u8>>, NoMemory>
    requires form { IsInForm script.now }
    requires node { IsNode script.now.nodes n.0 }
    ensures { IfOk result (λ found. (bytes : List ℕ) → SpellsScript bytes script.now
        → MatchOption found (HasNoText kind bytes n.0) (λ text.
        IsNodeText kind bytes n.0 text.items)) }
{
    match kind {
        NodeText::Image => {
            let image = run_image(rt, alloc, gate, script, n)?;
            Ok(Some(image))
        }
        NodeText::Frames => run_copy(rt, alloc, gate, script, n),
    }
}

/// Runs the script that the bytes are, and writes what is written of a node as it leaves it.
#[tactic(auto, using(crate::proofs::NodeTextLaws::wrote_text, crate::proofs::NodeTextLaws::wrote_in_part, crate::proofs::NodeTextLaws::lacks_node, crate::proofs::NodeTextLaws::refusal_text))]
fn node_bytes<R: Threads + Wait + Sync, K: Sink, G: Gate + Sync>(
    rt: &R,
    alloc: Global,
    gate: &G,
    kind: NodeText,
    bytes: &[u8],
    n: NodeNo,
    sink: &mut K,
) -> Status
    requires long { length bytes.now ≤ longest }
    requires some { 1 ≤ n.0 }
    ensures answers { result ≢ Status.Memory
        → IsNodeAnswer kind n.0 bytes.now (K.held sink.old) (K.held sink.new) result }
    ensures write { result ≡ Status.WriteFault → Rose (K.fault_count sink.old)
        (K.fault_count sink.new) }
    ensures kept { result ≢ Status.Done → result ≢ Status.WriteFault → sink.new ≡ sink.old }
    ensures others { (result ≢ Status.Usage) × (result ≢ Status.ReadFault) ×
        (result ≢ Status.TooLarge) × (result ≢ Status.BadIndex) × (result ≢ Status.BadImage) ×
        (result ≢ Status.BadReport) × ((k : ℕ) → result ≢ Status.BadStream k) }
{
    let script = match read_script(alloc, bytes) {
        Ok(script) => script,
        Err(status) => return status,
    };
    if script.nodes < n.0 {
        return Status::NoSuchNode;
    }
    match node_text(rt, alloc, gate, kind, &script, n) {
        Ok(Some(text)) => match write_all(sink, text.as_slice()) {
            Ok(()) => Status::Done,
            Err(_) => Status::WriteFault,
        },
        Ok(None) => Status::NoCopy,
        Err(_) => Status::Memory,
    }
}

/// Reads a script from the source, runs it, and writes what the words ask for of a node as the script leaves it.
pub fn node_source<R: Threads + Wait + Sync, S: Source, K: Sink, G: Gate + Sync>(
    rt: &R,
    alloc: Global,
    gate: &G,
    kind: NodeText,
    words: &[Arg],
    n: u32,
    source: &mut S,
    sink: &mut K,
) -> Status
    requires reads { S.fault_count source.old < 2 ^ 64 - 1 }
    requires writes { K.fault_count sink.old < 2 ^ 64 - 1 }
    requires asked { AreNameAndNumber (asking_word kind) 16 words.now n }
    ensures answers { (k : ℕ) → AreNameAndNumber (asking_word kind) 16 words.now k
        → result ≢ Status.ReadFault → result ≢ Status.TooLarge → result ≢ Status.Memory
        → AnswersNode kind k (S.left source.old) (S.left source.new) (K.held sink.old)
        (K.held sink.new) result }
    ensures read { result ≡ Status.ReadFault → S.fault_count source.old < S.fault_count source.new }
    ensures write { result ≡ Status.WriteFault → K.fault_count sink.old < K.fault_count sink.new }
    ensures large { result ≡ Status.TooLarge → TakesMore (S.left source.old) (S.left source.new) }
    ensures small { result ≢ Status.TooLarge → result ≢ Status.Memory
        → TakesWithin (S.left source.old) (S.left source.new) }
    ensures kept { result ≢ Status.Done → result ≢ Status.WriteFault → sink.new ≡ sink.old }
    ensures others { (result ≢ Status.Usage) × (result ≢ Status.BadIndex) ×
        (result ≢ Status.BadImage) × (result ≢ Status.BadReport) ×
        ((k : ℕ) → result ≢ Status.BadStream k) }
{
    let node = NodeNo(n as u8);
    match read_all(alloc, source) {
        Ok(bytes) => node_bytes(rt, alloc, gate, kind, bytes.as_slice(), node, sink),
        Err(ReadEnd::Memory) => Status::Memory,
        Err(ReadEnd::Fault) => Status::ReadFault,
        Err(ReadEnd::TooLarge) => Status::TooLarge,
    }
}
