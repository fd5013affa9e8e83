//! Two threads append to one list under the lock, and a seat is told what another has seen.

use crate::lock::HistLock;
use crate::pairs::{
    LeftByTwo, Pairs, append_in_two_threads, list_of_two_threads, lock_after_telling,
};
use std::test::Fail;

#[test]
fn two_threads_append_a_thousand_each(rt: HostRuntime) -> Result<(), Fail> {
    let LeftByTwo { pairs, one, two } = list_of_two_threads(&rt, rt.alloc(), 1000)?;
    let mut next = [0u64, 0];
    let mut ordered = true;
    for &(by, number) in pairs.as_slice() {
        let lane = if by == 1 { 0 } else { 1 };
        ordered = ordered && number == next[lane];
        next[lane] = next[lane].wrapping_add(1);
    }
    assert!(rt; ordered && next == [1000, 1000]);
    // Each thread copied only what was new at each turn, so these begin the list only if each list that it found began with what it had seen.
    assert!(rt;
        pairs.as_slice().starts_with(one.as_slice()) && pairs.as_slice().starts_with(two.as_slice())
    );
    Ok(())
}

#[test]
fn a_seat_that_is_told_finds_all_entries_of_both(rt: HostRuntime) -> Result<(), Fail> {
    let alloc = rt.alloc();
    let (lock, mut first) = HistLock::new(alloc, Pairs::new(alloc))?;
    let one = lock.split(&mut first);
    let two = lock.split(&mut first);
    let (one, two) = append_in_two_threads(&rt, alloc, &lock, one, two, 1000);
    let (mut one, one_seen) = one;
    let (mut two, two_seen) = two;
    let mut held = lock_after_telling(&rt, &lock, &mut one, &mut two);
    let found = held.value().as_slice().len();
    lock.unlock(&mut two, held);
    lock.join(&mut first, one);
    lock.join(&mut first, two);
    let pairs = lock.close(first);
    assert!(rt;
        one_seen.is_ok() && two_seen.is_ok() && found == 2000 && pairs.as_slice().len() == 2000
    );
    Ok(())
}
