//! A link to another node.

ghost use Rattle.std.specs.Prelude.{◌≡◌, ◌+◌, ◌<◌, ◌≤◌, ℕ, List, length, slice_range, Option, IsSome, IfOk, OnOk, OnErr, IsErrOf};
ghost use Rattle.nrt_base.specs.Causes.{Rose};
ghost use Rattle.link_model.specs.declared.fate.Fate.{Fate};
ghost use Rattle.link_model.specs.Carrying.{carried_by, IsAlteration, is_handed_out, CountsDamages, CountsLinkFaults, GoesByFate};

use crate::fate::Fate;
use bytes::Bytes;
use nrt_base::NoMemory;
use thiserror::Error;

/// Why a link refuses a call.
#[derive(Clone, Copy, Debug, PartialEq, Eq, Error)]
pub enum LinkFault {
    /// Memory was wanting.
    #[error("out of memory")]
    Memory,
    /// The link failed.
    #[error("the link to the other node failed")]
    Failed,
}

impl From<NoMemory> for LinkFault {
    ghost use Rattle.link_model.specs.declared.link.LinkFault.TheVariants.{Memory};

    ghost from_gives = { λ _ e. e ≡ Memory };

    fn from(_: NoMemory) -> Self {
        LinkFault::Memory
    }
}

/// A link to another node, over which one file at a time is carried.
///
/// Its meaning is the file that was begun, and the byte of it that is altered on its way, if any: its
/// place, and what stands there instead.
pub trait Link {
    /// The file that was begun; empty before.
    ghost begun: { Self → List ℕ };

    /// The altered byte of that file.
    ghost altered: { Self → Option (ℕ × ℕ) };

    /// How often the link failed.
    ghost faults: { Self → ℕ };

    /// How often it handed out an altered byte.
    ghost damages: { Self → ℕ };

    /// What becomes of the next file, where it is known.
    ghost fate: { Self → Option Fate };

    /// Begins a file.
    fn begin(&mut self, file: &Bytes) -> Result<(), LinkFault>
        requires { 0 < length file.now }
        ensures file { OnOk result (begun self.new ≡ file.now) }
        ensures altered { OnOk result (IsAlteration file.now (altered self.new)) }
        ensures faults { CountsLinkFaults (faults self.old) (faults self.new) result }
        ensures damages { damages self.new ≡ damages self.old }
        ensures fate { GoesByFate (fate self.old) file.now (altered self.new) result }
        ensures known { IsSome (fate self.old) → IsSome (fate self.new) };

    /// The bytes of the file from a place on, as they are carried.
    fn fetch(&mut self, at: usize, len: usize) -> Result<Bytes, LinkFault>
        requires some { 0 < length (begun self.old) }
        requires within { at + len ≤ length (begun self.old) }
        ensures bytes { IfOk result (λ bytes. bytes
            ≡ slice_range (carried_by (altered self.old) (begun self.old)) at (at + len)) }
        ensures begun { begun self.new ≡ begun self.old }
        ensures altered { altered self.new ≡ altered self.old }
        ensures faults { CountsLinkFaults (faults self.old) (faults self.new) result }
        ensures damages { OnOk result (CountsDamages (is_handed_out (altered self.old) at len)
            (damages self.old) (damages self.new)) }
        ensures kept { OnErr result (damages self.new ≡ damages self.old) }
        ensures fate { IsSome (fate self.old) → IsErrOf result LinkFault.Failed → ⊥ }
        ensures known { IsSome (fate self.old) → IsSome (fate self.new) };

    /// How often the link failed. It never falls, and stays at 2^64 - 1.
    fn faults(&self) -> u64
        ensures { result ≡ faults self.now };

    /// How often it handed out an altered byte. It never falls, and stays at 2^64 - 1.
    fn damages(&self) -> u64
        ensures { result ≡ damages self.now };
}
