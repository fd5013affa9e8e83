//! The command that runs the generated script.

ghost use Rattle.std.specs.Prelude.{◌≡◌, ◌≢◌, ◌≤◌, ◌<◌, ℕ, None, IsSomeAnd, IfOk};
ghost use Rattle.nrt_base.specs.Causes.{Rose};
ghost use Rattle.nrt_commands.specs.Load.{IsLoadOf, IsSummary, LeavesSummary, LeavesSummaryInPart, IsLoadAnswer};

use cluster_run::{Cluster, Gate, let_go, run_script};
use disk_memory::MemDir;
use load_script::{generated, summary};
use nrt_base::NoMemory;
use nrt_streams::{Arg, Sink};
use std::alloc::Global;
use std::sync::Wait;
use std::thread::Threads;
use stream_commands::{Status, write_all};

/// A run of the script of n documents, and its summary.
fn run_load<R: Threads + Wait + Sync, G: Gate + Sync>(
    rt: &R,
    alloc: Global,
    gate: &G,
    n: u32,
) -> Result<(Cluster<MemDir>, Vec<u8>), NoMemory>
    requires some { 1 ≤ n }
    requires most { n ≤ 10000 }
    ensures { IfOk result (λ run. IsSummary n run.0 run.1.items) }
{
    let script = generated(alloc, n)?;
    let cluster = run_script(rt, alloc, gate, &script)?;
    match summary(alloc, n, cluster.entries()) {
        Ok(text) => Ok((cluster, text)),
        Err(no_memory) => {
            let_go(Some(cluster));
            Err(no_memory)
        }
    }
}

/// Runs the script of n documents, and writes its summary to the sink.
fn load_documents<R: Threads + Wait + Sync, K: Sink, G: Gate + Sync>(
    rt: &R,
    alloc: Global,
    gate: &G,
    n: u32,
    sink: &mut K,
    left: &mut Option<Cluster<MemDir>>,
) -> Status
    requires some { 1 ≤ n }
    requires most { n ≤ 10000 }
    requires empty { left.old ≡ None }
    ensures done { result ≡ Status.Done → IsSomeAnd left.new
        (LeavesSummary n (K.held sink.old) (K.held sink.new)) }
    ensures part { result ≡ Status.WriteFault → IsSomeAnd left.new
        (LeavesSummaryInPart n (K.held sink.old) (K.held sink.new)) }
    ensures answers { result ≢ Status.Memory → IsLoadAnswer result }
    ensures write { result ≡ Status.WriteFault → Rose (K.fault_count sink.old)
        (K.fault_count sink.new) }
    ensures kept { result ≢ Status.Done → result ≢ Status.WriteFault → sink.new ≡ sink.old }
    ensures none { result ≢ Status.Done → result ≢ Status.WriteFault → left.new ≡ None }
    ensures others { (result ≢ Status.Usage) × (result ≢ Status.ReadFault) ×
        (result ≢ Status.TooLarge) × (result ≢ Status.BadIndex) × (result ≢ Status.BadImage) ×
        ((k : ℕ) → result ≢ Status.BadStream k) }
{
    let Ok((cluster, text)) = run_load(rt, alloc, gate, n) else {
        return Status::Memory;
    };
    let_go(left.replace(cluster));
    match write_all(sink, text.as_slice()) {
        Ok(()) => Status::Done,
        Err(_) => Status::WriteFault,
    }
}

/// Runs the script of the documents that the words ask for, and writes its summary to the sink.
pub fn load<R: Threads + Wait + Sync, K: Sink, G: Gate + Sync>(
    rt: &R,
    alloc: Global,
    gate: &G,
    words: &[Arg],
    n: u32,
    sink: &mut K,
    left: &mut Option<Cluster<MemDir>>,
) -> Status
    requires asked { IsLoadOf words.now n }
    requires empty { left.old ≡ None }
    ensures done { (k : ℕ) → IsLoadOf words.now k → result ≡ Status.Done
        → IsSomeAnd left.new (LeavesSummary k (K.held sink.old) (K.held sink.new)) }
    ensures part { (k : ℕ) → IsLoadOf words.now k → result ≡ Status.WriteFault
        → IsSomeAnd left.new (LeavesSummaryInPart k (K.held sink.old) (K.held sink.new)) }
    ensures answers { result ≢ Status.Memory → IsLoadAnswer result }
    ensures write { result ≡ Status.WriteFault → Rose (K.fault_count sink.old)
        (K.fault_count sink.new) }
    ensures kept { result ≢ Status.Done → result ≢ Status.WriteFault → sink.new ≡ sink.old }
    ensures none { result ≢ Status.Done → result ≢ Status.WriteFault → left.new ≡ None }
    ensures others { (result ≢ Status.Usage) × (result ≢ Status.ReadFault) ×
        (result ≢ Status.TooLarge) × (result ≢ Status.BadIndex) × (result ≢ Status.BadImage) ×
        ((k : ℕ) → result ≢ Status.BadStream k) }
{
    load_documents(rt, alloc, gate, n, sink, left)
}
