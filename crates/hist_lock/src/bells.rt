//! Words to sleep by, so that a thread is woken for its own ticket alone.
use std::array::from_fn;
use std::sync::Wait;
use std::sync::atomic::{AtomicU64, Ordering};

/// How many words there are. Where no more tickets wait at once, each has a word of its own.
const WORDS: usize = 16;

/// Words that count how often they were rung. Those who wait for a ticket sleep by its word.
#[derive(Drop)]
pub struct Bells {
    words: [AtomicU64; WORDS],
}

impl Bells {
    pub fn new() -> Bells {
        Bells {
            words: from_fn(|_| AtomicU64::new(0)),
        }
    }

    fn of(&self, ticket: u64) -> &AtomicU64 {
        &self.words[ticket as usize % WORDS]
    }

    /// How often the ticket's word was rung, modulo 2^64.
    pub fn rings(&self, ticket: u64) -> u64 {
        self.of(ticket).load(Ordering::SeqCst)
    }

    /// Sleeps until the ticket's word is rung, and not at all where that was after `rings`. It may also return for no reason.
    pub fn sleep<R: Wait>(&self, rt: &R, ticket: u64, rings: u64) {
        // The word counts on, so its low half is enough to sleep by.
        self.of(ticket).park(rt, (rings & 0xFFFF_FFFF) as u32);
    }

    /// Rings the ticket's word, and wakes all who sleep by it.
    pub fn ring(&self, ticket: u64) {
        let word = self.of(ticket);
        word.fetch_add(1, Ordering::SeqCst);
        word.wake_all();
    }
}
