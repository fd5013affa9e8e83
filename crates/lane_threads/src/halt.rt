//! The word that the lanes and workers of a phase share.

use std::sync::Wait;
use std::sync::atomic::{AtomicU64, Ordering};

/// How many lanes a phase has.
const LANES: u64 = 8;

/// The part of the word that counts the lanes that have ended.
const ENDED: u64 = 0xFF;

/// What a failure adds to the word, and the part that counts failures. Each seat of a crew fails once at most.
const FAILURE: u64 = 0x100;

const FAILURES: u64 = 0xFF00;

/// What a task that is posted adds. Posts have the rest of the word.
const POST: u64 = 0x1_0000;

/// How many lanes of a phase have ended, whether a lane or a worker has failed, and how many tasks were posted.
///
/// A line that waits for another lane's looks at it, since what it waits for may never come. No line can sleep until it changes, or see how
/// many lanes have ended: this crate alone has these calls, and only who does tasks for no line makes them.
#[derive(Drop)]
pub struct Halt {
    word: AtomicU64,
}

/// What the word was at one moment.
#[derive(Debug, Clone, Copy)]
pub struct Glance {
    word: u64,
}

impl Glance {
    /// Whether a lane or a worker had failed.
    pub fn has_failed(self) -> bool {
        self.word & FAILURES != 0
    }

    /// Whether all lanes had ended, or a lane or a worker had failed.
    pub fn is_over(self) -> bool {
        self.word & ENDED >= LANES || self.has_failed()
    }
}

impl Halt {
    /// No lane has ended, none has failed, and no task was posted.
    pub fn new() -> Self {
        Halt {
            word: AtomicU64::new(0),
        }
    }

    /// A lane or a worker has failed.
    pub(crate) fn set(&self) {
        self.add(FAILURE);
    }

    /// Whether a lane or a worker has failed.
    pub fn is_set(&self) -> bool {
        self.glance().has_failed()
    }

    /// A lane has ended.
    pub(crate) fn end_lane(&self) {
        self.add(1);
    }

    /// A task was posted: whoever sleeps looks for it.
    pub fn stir(&self) {
        self.add(POST);
    }

    /// What the word is now.
    pub(crate) fn glance(&self) -> Glance {
        Glance {
            word: self.word.load(Ordering::SeqCst),
        }
    }

    /// Sleeps until the word is another than at that glance. Where it is another already, it does not sleep.
    pub(crate) fn sleep_after<R: Wait>(&self, rt: &R, glance: Glance) {
        self.word.park(rt, (glance.word & 0xFFFF_FFFF) as u32);
    }

    fn add(&self, count: u64) {
        self.word.fetch_add(count, Ordering::SeqCst);
        self.word.wake_all();
    }
}
