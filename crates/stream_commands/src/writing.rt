//! Bytes, written to a sink.

ghost use Rattle.std.specs.Prelude.{◌≡◌, ◌≤◌, OnOk, OnErr, ℕ, length, take};
ghost use Rattle.std.specs.Io.KnownBytes.{Appends};
ghost use Rattle.nrt_base.specs.Causes.{HasCause};

use nrt_streams::{Failed, Sink};

/// Writes all bytes, or a part from their front where the sink fails.
#[tactic(auto, using(crate::proofs::Writes::appends_more))]
pub fn write_all<K: Sink>(sink: &mut K, bytes: &[u8]) -> Result<(), Failed>
    ensures written { OnOk result (Appends (K.held sink.old) (K.held sink.new) bytes.now) }
    ensures prefix { OnErr result ((n : ℕ) × (n ≤ length bytes.now) × Appends (K.held sink.old)
        (K.held sink.new) (take n bytes.now)) }
    ensures cause { HasCause (K.fault_count sink.old) (K.fault_count sink.new) result }
{
    let mut at = 0;
    while at < bytes.len() {
        let rest = &bytes[at..];
        match sink.write(rest) {
            Err(failed) => return Err(failed),
            Ok(count) => at += count,
        }
    }
    Ok(())
}
