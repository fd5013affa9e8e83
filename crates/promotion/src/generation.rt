//! The infos that open a generation.

ghost use Rattle.std.specs.Prelude.{◌≡◌, ◌≤◌, ◌↔◌, IfOk, IsErrOf};
ghost use Rattle.nrt_base.specs.declared.numbers.Gen.{Gen};
ghost use Rattle.promotion.specs.Generations.{promoted_infos, IsNotNewer, IsForceHigh};

use crate::fault::PromoteFault;
use nrt_base::{Gen, Share, Version};
use segment_infos::Infos;
use std::alloc::Global;

/// The forced versions are below this one.
const HIGH: u64 = 1 << 62;

/// The infos of a generation that opens on these infos, one above a forced version that no published version is above.
pub fn open_generation(
    alloc: Global,
    infos: &Infos,
    generation: Gen,
    forced: Version,
) -> Result<Infos, PromoteFault>
    requires { infos.now.version.0 ≤ forced.0 }
    ensures opened { IfOk result (λ opened. opened ≡ promoted_infos infos.now generation forced) }
    ensures not_newer { (last : Gen) → IsErrOf result (PromoteFault.GenNotNewer last)
        ↔ IsNotNewer infos.now generation last }
    ensures force_high { IsErrOf result PromoteFault.ForceHigh
        ↔ IsForceHigh infos.now generation forced }
{
    if generation <= infos.generation {
        return Err(PromoteFault::GenNotNewer(infos.generation));
    }
    if forced.0 >= HIGH {
        return Err(PromoteFault::ForceHigh);
    }
    Ok(Infos {
        generation,
        version: Version(forced.0 + 1),
        counter: 0,
        segs: infos.segs.share(alloc)?,
    })
}
