//! A publish that starts.

ghost use Rattle.std.specs.Prelude.{◌≡◌, ◌+◌, ◌<◌, ◌≤◌, Some, None, true, false, length, OnErr, IfOk, IfSome, IsErrOf, Ok, Err, ◌↔◌};
ghost use Rattle.nrt_base.specs.SegNumbers.{segments_of_generation};
ghost use Rattle.index_primary.specs.Cut.{has_put, IsIdle, AreSpent, AreTooMany};
ghost use Rattle.index_primary.specs.Primary.{IsPrimary};
ghost use Rattle.index_primary.specs.Calls.{IsTaskOf, after_start, DrawsOnly};

use crate::parts::{PrimaryParts, Publish, PublishFault};
use crate::primary::Primary;
use crate::waiting::is_put_among;
use disk_model::Dir;
use nrt_base::{SegNo, Share};
use segment_steps::FlushTask;
use std::alloc::Global;

/// How many segments infos may have.
const SEGMENTS: usize = 256;

// Whether there is something to publish, and then whether there is a put; or why a publish is refused.
fn judge<D: Dir>(parts: &PrimaryParts<D>) -> Result<Option<bool>, PublishFault>
    requires { parts.now.infos.counter ≤ segments_of_generation }
    ensures idle { (result ≡ Ok None) ↔ IsIdle parts.now.waiting parts.now.has_cut_over }
    ensures spent { IsErrOf result PublishFault.NamesSpent
        ↔ AreSpent parts.now.waiting parts.now.infos }
    ensures too_many { IsErrOf result PublishFault.TooManySegments
        ↔ AreTooMany parts.now.waiting parts.now.infos parts.now.segs }
    ensures put { IfOk result (λ o. IfSome o (λ b. b ≡ has_put parts.now.waiting)) }
    ensures counter { result ≡ Ok (Some true) → parts.now.infos.counter < segments_of_generation }
    ensures few { result ≡ Ok (Some true) → length parts.now.segs < 256 }
    ensures some { IsErrOf result PublishFault.Memory → ⊥ }
{
    let has_put = is_put_among(parts.waiting.as_slice());
    if has_put {
        if parts.infos.counter as u64 == SegNo::OF_GENERATION {
            return Err(PublishFault::NamesSpent);
        }
        if parts.segs.as_slice().len() >= SEGMENTS {
            return Err(PublishFault::TooManySegments);
        }
        return Ok(Some(true));
    }
    if parts.waiting.as_slice().is_empty() && !parts.has_cut_over {
        return Ok(None);
    }
    Ok(Some(false))
}

impl<D: Dir> Primary<D> {
    /// Starts a publish, which takes every operation that was accepted and is not published. None comes exactly where there
    /// is none and nothing was cut over since the last point.
    pub fn publish_start(&mut self, alloc: Global) -> Result<Option<FlushTask>, PublishFault>
        requires none { self.old.publish ≡ None }
        ensures idle { (result ≡ Ok None) ↔ IsIdle self.old.waiting self.old.has_cut_over }
        ensures task { IfOk result (λ task. IfSome task (IsTaskOf self.old)) }
        ensures spent { IsErrOf result PublishFault.NamesSpent
            ↔ AreSpent self.old.waiting self.old.infos }
        ensures too_many { IsErrOf result PublishFault.TooManySegments
            ↔ AreTooMany self.old.waiting self.old.infos self.old.segs }
        ensures next { IfOk result (λ task. self.new ≡ after_start self.old task) }
        ensures err { OnErr result (self.new ≡ self.old) }
        ensures drawn { DrawsOnly self.old self.new }
        ensures whole { IsPrimary D.cells self.new }
    {
        let has_put = match judge(&self.parts) {
            Ok(Some(has_put)) => has_put,
            Ok(None) => return Ok(None),
            Err(fault) => return Err(fault),
        };
        let Ok(ops) = self.parts.waiting.share(alloc) else {
            return Err(PublishFault::Memory);
        };
        let Ok(segs) = self.parts.segs.share(alloc) else {
            drop(ops);
            return Err(PublishFault::Memory);
        };
        let count = self.parts.waiting.as_slice().len();
        if !has_put {
            self.parts.publish = Some(Publish { seg: None, count });
            return Ok(Some(FlushTask {
                seg: None,
                ops,
                segs,
            }));
        }
        let seg = SegNo(
            self.parts.infos.generation.0 * SegNo::OF_GENERATION + self.parts.infos.counter as u64,
        );
        self.parts.infos.counter += 1;
        self.parts.publish = Some(Publish {
            seg: Some(seg),
            count,
        });
        Ok(Some(FlushTask {
            seg: Some(seg),
            ops,
            segs,
        }))
    }
}
