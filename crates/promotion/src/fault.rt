//! Why no generation opens.

ghost use Rattle.std.specs.Prelude.{◌≡◌};
ghost use Rattle.promotion.specs.declared.fault.PromoteFault.TheVariants.{Memory};

use nrt_base::{Gen, NoMemory};
use thiserror::Error;

/// Why no generation opens.
#[derive(Clone, Copy, Debug, PartialEq, Eq, Error)]
pub enum PromoteFault {
    /// Out of memory.
    #[error("out of memory")]
    Memory,
    /// The generation is not above the last one, which is this.
    #[error("the generation must be above the last one, {last}", last = .0.0)]
    GenNotNewer(Gen),
    /// The forced version is 2^62 or more.
    #[error("the forced version must be below 4611686018427387904")]
    ForceHigh,
}

impl From<NoMemory> for PromoteFault {
    ghost from_gives = { λ _ fault. fault ≡ Memory };

    fn from(_: NoMemory) -> Self {
        PromoteFault::Memory
    }
}
