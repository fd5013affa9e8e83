//! What a query finds in a point that was handed out.

ghost use Rattle.std.specs.Prelude.{List, ◌≡◌, ◌<◌, ◌^◌, true, IfOk, IsTrue};
ghost use Rattle.std.specs.List.{All};
ghost use Rattle.nrt_base.specs.declared.doc.Doc.{Doc};
ghost use Rattle.documents.specs.Matching.{is_well_formed};
ghost use Rattle.documents.specs.Ranking.{scan_of};
ghost use Rattle.seg_reader.specs.Shown.{AreLiveDocuments};
ghost use Rattle.seg_reader.specs.Sound.{IsSound};
ghost use Rattle.query_eval.specs.Matching.{rows_of};

use documents::{Answer, Query};
use nrt_base::NoMemory;
use query_eval::answer;
use searcher_switch::Lease;
use seg_reader::Segment;
use std::alloc::{AllocError, Global};

// Whether segments have fewer than 2^32 rows together.
fn have_few_rows(segs: &[Segment]) -> bool
    ensures { result ≡ true → rows_of segs.now < 2 ^ 32 }
{
    let mut rows = 0u32;
    for seg in segs {
        let Some(sum) = rows.checked_add(seg.rows()) else {
            return false;
        };
        rows = sum;
    }
    true
}

/// What a search answers over what was handed out to it, whose live rows are some documents.
pub fn evaluate(alloc: Global, lease: &Lease<Segment>, query: &Query) -> Result<Answer, NoMemory>
    requires sound { All IsSound lease.now.readers }
    requires well_formed { IsTrue (is_well_formed query.now) }
    ensures { IfOk result (λ answer. (docs : List Doc) → AreLiveDocuments lease.now.readers docs
        → answer ≡ scan_of docs query.now) }
{
    let segs = lease.readers.as_slice();
    if !have_few_rows(segs) {
        return Err(AllocError);
    }
    answer(alloc, segs, query)
}
