//! A list of pairs under the lock, for the tests. It is the smallest caller: a value that grows, a section that appends, two threads, and a seat that is told.
//!
//! It stands outside the tests because an edit that the check must refuse is checked without them.
ghost use Rattle.std.specs.Prelude.{◌≡◌, ◌+◌, ◌<◌, [], ◌∷◌, ◌++◌, ◌==◌, true, length, drop, OnOk, OnErr, IfOk};
ghost use Rattle.std.specs.List.{filter};
ghost use Rattle.hist_lock.specs.Pairs.{pairs_below, IsFreeSeat, IsUnused, HasSameRoom};
ghost use Rattle.hist_lock.specs.Seats.{history_seen, number_of, own_entries, room_of, IsInside, IsSeatOf};
ghost use mathlib.Core.List.{IsPrefix};

use crate::grows::Grows;
use crate::lock::{Held, HistLock, LaneSeat};
use std::alloc::{AllocError, Global};
use std::marker::Model;
use std::sync::Wait;
use std::thread::{Threads, join};

/// Pairs of a seat's number and a number.
#[derive(Drop)]
pub struct Pairs {
    list: Vec<(u64, u64)>,
}

impl Model for Pairs {
    ghost use Rattle.std.specs.Prelude.{ℕ, List};

    ghost Value = { List (ℕ × ℕ) };

    ghost view = { λ p. p.list.items };
}

impl Grows for Pairs {
    type Entry = (u64, u64);

    ghost history = { λ p. p };

    ghost names = { λ e. e.0 };
}

impl Pairs {
    pub fn new(alloc: Global) -> Pairs
        ensures { result ≡ [] }
    {
        Pairs {
            list: Vec::new(alloc),
        }
    }

    pub fn as_slice(&self) -> &[(u64, u64)]
        ensures { result.now ≡ self.now }
    {
        self.list.as_slice()
    }

    /// Appends a pair, and adds to what was seen all that is new in the list.
    pub fn push_after(
        &mut self,
        seen: &mut Vec<(u64, u64)>,
        by: u64,
        number: u64,
    ) -> Result<(), AllocError>
        ensures ok { OnOk result (self.new ≡ self.old ++ (by, number) ∷ []) }
        ensures seen { OnOk result
            (seen.new.items ≡ (seen.old.items ++ drop (length seen.old.items) self.old) ++ (by, number) ∷ []) }
        ensures err { OnErr result (self.new ≡ self.old) }
    {
        let known = seen.len().min(self.list.len());
        seen.extend_from_slice(&self.list[known..])?;
        seen.push((by, number))?;
        self.list.push((by, number))?;
        Ok(())
    }
}

/// Appends a pair under the seat's number. `seen` is a copy of all that the seat has seen, to which only what is new is added.
pub fn append<R: Wait>(
    rt: &R,
    lock: &HistLock<Pairs>,
    seat: &mut LaneSeat<Pairs>,
    seen: &mut Vec<(u64, u64)>,
    by: u64,
    number: u64,
) -> Result<(), AllocError>
    requires seat { IsFreeSeat lock.now by seat.old }
    requires number { 0 < by }
    requires seen { seen.old.items ≡ history_seen seat.old }
    ensures seat { IsFreeSeat lock.now by seat.new }
    ensures same { HasSameRoom seat.old seat.new }
    ensures own { OnOk result (own_entries seat.new ≡ own_entries seat.old ++ (by, number) ∷ []) }
    ensures seen { OnOk result (seen.new.items ≡ history_seen seat.new) }
{
    let mut held = lock.lock(rt, seat);
    let answer = held.value().push_after(seen, by, number);
    lock.unlock(seat, held);
    answer
}

/// Appends the numbers below `count`, and gives the seat back, with a copy of all that it has seen.
pub fn append_all<R: Wait>(
    rt: &R,
    alloc: Global,
    lock: &HistLock<Pairs>,
    mut seat: LaneSeat<Pairs>,
    by: u64,
    count: u64,
) -> (LaneSeat<Pairs>, Result<Vec<(u64, u64)>, AllocError>)
    requires seat { IsFreeSeat lock.now by seat }
    requires number { 0 < by }
    requires unused { IsUnused seat }
    ensures seat { IsFreeSeat lock.now by result.0 }
    ensures same { HasSameRoom seat result.0 }
    ensures own { OnOk result.1 (own_entries result.0 ≡ pairs_below by count) }
    ensures seen { IfOk result.1 (λ seen. seen.items ≡ history_seen result.0) }
{
    let mut seen = Vec::new(alloc);
    for number in 0..count {
        if append(rt, lock, &mut seat, &mut seen, by, number).is_err() {
            return (seat, Err(AllocError));
        }
    }
    (seat, Ok(seen))
}

/// A seat whose thread has ended, and a copy of all that it has seen.
pub type Ended = (LaneSeat<Pairs>, Result<Vec<(u64, u64)>, AllocError>);

/// Two threads append the numbers below `count` each, and give their seats back.
pub fn append_in_two_threads<R: Threads + Wait + Sync>(
    rt: &R,
    alloc: Global,
    lock: &HistLock<Pairs>,
    one: LaneSeat<Pairs>,
    two: LaneSeat<Pairs>,
    count: u64,
) -> (Ended, Ended)
    requires one { IsFreeSeat lock.now 1 one × IsUnused one }
    requires two { IsFreeSeat lock.now 2 two × IsUnused two }

    ensures one { IsFreeSeat lock.now 1 result.0.0 × HasSameRoom one result.0.0 }
    ensures own_of_one { OnOk result.0.1 (own_entries result.0.0 ≡ pairs_below 1 count) }
    ensures seen_by_one { IfOk result.0.1 (λ seen. seen.items ≡ history_seen result.0.0) }

    ensures two { IsFreeSeat lock.now 2 result.1.0 × HasSameRoom two result.1.0 }
    ensures own_of_two { OnOk result.1.1 (own_entries result.1.0 ≡ pairs_below 2 count) }
    ensures seen_by_two { IfOk result.1.1 (λ seen. seen.items ≡ history_seen result.1.0) }
{
    join(
        rt,
        move || -> Ended
            requires { IsFreeSeat lock.now 1 one × IsUnused one }
            ensures { IsFreeSeat lock.entry.now 1 result.0 × HasSameRoom one result.0
                × OnOk result.1 (own_entries result.0 ≡ pairs_below 1 count)
                × IfOk result.1 (λ seen. seen.items ≡ history_seen result.0) }
        { append_all(rt, alloc, lock, one, 1, count) },
        move || -> Ended
            requires { IsFreeSeat lock.now 2 two × IsUnused two }
            ensures { IsFreeSeat lock.entry.now 2 result.0 × HasSameRoom two result.0
                × OnOk result.1 (own_entries result.0 ≡ pairs_below 2 count)
                × IfOk result.1 (λ seen. seen.items ≡ history_seen result.0) }
        { append_all(rt, alloc, lock, two, 2, count) },
    )
}

/// What two threads leave behind.
#[derive(Drop)]
pub struct LeftByTwo {
    pub pairs: Pairs,
    /// What the first thread had seen at its end.
    pub one: Vec<(u64, u64)>,
    /// What the second had seen.
    pub two: Vec<(u64, u64)>,
}

/// The list after two threads have appended the numbers below `count` each. It has under each one's number just these, once and in order, and it begins with all that either thread had seen.
pub fn list_of_two_threads<R: Threads + Wait + Sync>(
    rt: &R,
    alloc: Global,
    count: u64,
) -> Result<LeftByTwo, AllocError>
    ensures one { IfOk result (λ l. filter (λ e. e.0 == 1) l.pairs ≡ pairs_below 1 count) }
    ensures two { IfOk result (λ l. filter (λ e. e.0 == 2) l.pairs ≡ pairs_below 2 count) }
    ensures seen { IfOk result (λ l. IsPrefix l.one.items l.pairs × IsPrefix l.two.items l.pairs) }
{
    let (lock, mut first) = HistLock::new(alloc, Pairs::new(alloc))?;
    let one = lock.split(&mut first);
    let two = lock.split(&mut first);
    let (one, two) = append_in_two_threads(rt, alloc, &lock, one, two, count);
    lock.join(&mut first, one.0);
    lock.join(&mut first, two.0);
    let pairs = lock.close(first);
    Ok(LeftByTwo {
        pairs,
        one: one.1?,
        two: two.1?,
    })
}

/// The first seat tells the second, and the next list that the second finds has all pairs of both.
pub fn lock_after_telling<R: Wait>(
    rt: &R,
    lock: &HistLock<Pairs>,
    one: &mut LaneSeat<Pairs>,
    two: &mut LaneSeat<Pairs>,
) -> Held<Pairs>
    requires one { IsFreeSeat lock.now 1 one.old }
    requires two { IsFreeSeat lock.now 2 two.old }

    ensures one { IsPrefix (own_entries one.old) (filter (λ e. e.0 == 1) result) }
    ensures two { filter (λ e. e.0 == 2) result ≡ own_entries two.old }
    ensures seen { history_seen two.new ≡ result }

    ensures free { IsFreeSeat lock.now 1 one.new × (room_of one.new ≡ room_of one.old) }
    ensures inside { IsSeatOf lock.now two.new × IsInside two.new × (number_of two.new ≡ 2) }
    ensures room { room_of two.new + 1 ≡ room_of two.old }
{
    lock.tell(one, two);
    lock.lock(rt, two)
}
