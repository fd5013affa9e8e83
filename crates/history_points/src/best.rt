//! The first 20 of hits that come in some turn.

ghost use Rattle.std.specs.Prelude.{ℕ, ◌≡◌, ◌++◌, ◌∷◌, List, [], IsTrue, IfOk, OnOk, map, take};
ghost use Rattle.std.specs.BTreeMap.{IsOrdered};
ghost use Rattle.std.specs.List.Sorted.{IsSorted};
ghost use Rattle.std.specs.Ordering.{is_le, nat_cmp};
ghost use Rattle.documents.specs.Documents.{key_cmp};
ghost use Rattle.documents.specs.declared.answer.Hit.{Hit as HitLem};
ghost use Rattle.documents.specs.InOrder.{in_order};
ghost use Rattle.documents.specs.Ranking.{hit_cmp};
ghost use Rattle.history_points.specs.Kept.{ranked_hit, AreFirst, AreKeysBelow};

use crate::kept::Ranks;
use documents::Hit;
use nrt_base::{Key, NoMemory, Share};
use std::alloc::Global;
use std::cmp::Ordering;

/// How many hits an answer shows at most.
const MOST_HITS: usize = 20;

/// The greater rank comes first, and of equal ranks the lesser key.
fn compare(a: &Hit, b: &Hit) -> Ordering
    ensures { result ≡ hit_cmp a.now b.now }
{
    b.rank.cmp(&a.rank).then(a.key.cmp(&b.key))
}

/// Whether a hit has this rank at least.
fn has_rank(hit: &Hit, rank: u32) -> bool
    ensures { result ≡ is_le (nat_cmp rank hit.now.rank) }
{
    rank.cmp(&hit.rank).is_le()
}

/// Whether there are 20 hits that all stand before each of this rank whose key is above those of all hits.
fn are_before(best: &[Hit], rank: u32) -> bool
    ensures { IsTrue result → (hits : List HitLem) (key : List ℕ) → AreKeysBelow key hits
        → AreFirst hits best.now → AreFirst (hits ++ record { key = key; rank = rank } ∷ []) best.now }
{
    if best.len() < MOST_HITS {
        return false;
    }
    has_rank(&best[MOST_HITS - 1], rank)
}

/// Leaves the first 20 hits, in order.
fn cut(best: &mut Vec<Hit>)
    ensures first { best.new.items ≡ take 20 (in_order hit_cmp best.old.items) }
    ensures sorted { IsSorted hit_cmp best.new.items }
{
    best.sort_unstable_by(|a, b| compare(a, b));
    best.truncate(MOST_HITS);
}

/// Takes one more hit in, whose key is above those of the others. So keys are compared only where the hit is among the first.
fn add_hit(alloc: Global, best: &mut Vec<Hit>, key: &Key, rank: u32) -> Result<(), NoMemory>
    ensures { OnOk result ((hits : List HitLem) → AreKeysBelow key.now hits
        → AreFirst hits best.old.items → AreFirst (hits ++ record { key = key.now; rank = rank } ∷ []) best.new.items) }
{
    if are_before(best.as_slice(), rank) {
        return Ok(());
    }
    let key = key.share(alloc)?;
    best.push(Hit { key, rank })?;
    cut(best);
    Ok(())
}

/// The first 20 of the hits that these ranks are.
pub fn best_of(alloc: Global, ranks: &Ranks) -> Result<Vec<Hit>, NoMemory>
    requires { IsOrdered key_cmp ranks.now }
    ensures { IfOk result (λ best.
        best.items ≡ take 20 (in_order hit_cmp (map ranked_hit ranks.now.entries))) }
{
    let mut best = Vec::new(alloc);
    for (key, rank) in ranks {
        add_hit(alloc, &mut best, key, *rank)?;
    }
    Ok(best)
}
