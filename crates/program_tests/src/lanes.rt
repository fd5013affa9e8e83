//! Lanes side by side, and lanes that a gate holds until others came to a place.

use crate::running::{has_line, is_legal_report, ran, run_gated};
use nrt_commands::{Gate, Place};
use std::alloc::Global;
use std::sync::atomic::{AtomicU64, Ordering};
use std::test::Fail;
use stream_commands::Status;

/// A script whose eight lanes put, search, copy, publish and merge at the same time, 2,000 lines in all.
fn eight_lanes(alloc: Global) -> Result<Vec<u8>, Fail> {
    let mut script = b"nodes 3\nworkers 4\n".to_vec(alloc)?;
    for turn in 1..=250u32 {
        for lane in 1..=8u32 {
            let line = match turn % 10 {
                1 | 6 => format!(in alloc; "{lane} put {lane}-{turn} wide w1\n")?,
                2 | 7 => format!(in alloc; "{lane} search 1 w1\n")?,
                3 | 8 => format!(in alloc; "{lane} copy 2\n")?,
                4 | 9 => format!(in alloc; "{lane} put {lane}-x w2\n")?,
                5 => format!(in alloc; "{lane} publish\n")?,
                _ => format!(in alloc; "{lane} merge 4\n")?,
            };
            script.extend_from_slice(line.as_bytes())?;
        }
    }
    Ok(script)
}

/// Whether a line of a report is the reply to a line of that script: no start of one, and no switch.
fn is_reply(line: &[u8]) -> bool {
    match line.split(|byte| *byte == b' ').nth(1) {
        Some(word) => {
            word != b"publishing".as_slice()
                && word != b"copying".as_slice()
                && word != b"switched".as_slice()
                && word != b"opened".as_slice()
        }
        None => false,
    }
}

#[test]
fn eight_lanes_and_four_workers(rt: HostRuntime) -> Result<(), Fail> {
    let alloc = rt.alloc();
    let script = eight_lanes(alloc)?;
    let (status, text) = ran(&rt, alloc, b"run", script.to_vec(alloc)?)?;
    assert_eq!(rt; status, Status::Done);
    let lines = text.as_slice().split(|byte| *byte == b'\n');
    assert_eq!(rt; lines.filter(|line| is_reply(line)).count(), 2000);
    assert!(rt; is_legal_report(&rt, alloc, script.as_slice(), text.as_slice())?);
    Ok(())
}

/// A place that one lane comes to, and at which another waits for it.
#[derive(Drop)]
pub struct Meeting {
    come: AtomicU64,
    late: AtomicU64,
}

impl Meeting {
    pub fn new() -> Self {
        Meeting {
            come: AtomicU64::new(0),
            late: AtomicU64::new(0),
        }
    }

    pub fn arrive(&self) {
        self.come.store(1, Ordering::SeqCst);
    }

    // Looks a hundred times whether the other has come.
    fn has_come(&self) -> bool {
        for _ in 0..100 {
            if self.come.load(Ordering::SeqCst) == 1 {
                return true;
            }
        }
        false
    }

    // Waits for the other, 10,000,000 turns at most.
    pub fn wait(&self) {
        for _ in 0..10_000_000 {
            if self.has_come() {
                return;
            }
        }
        self.late.store(1, Ordering::SeqCst);
    }

    pub fn was_in_time(&self) -> bool {
        self.come.load(Ordering::SeqCst) == 1 && self.late.load(Ordering::SeqCst) == 0
    }
}

/// Holds the copy of a file until a search is about to be evaluated.
#[derive(Drop)]
struct HoldsCopies {
    meeting: Meeting,
}

impl Gate for HoldsCopies {
    fn pass(&self, place: Place) {
        match place {
            Place::Evaluate(..) => self.meeting.arrive(),
            Place::Chunk(..) => self.meeting.wait(),
            Place::Build(_) | Place::Merge(_) => {}
        }
    }
}

/// Holds the evaluation of a search until a merge is about to be made.
#[derive(Drop)]
struct HoldsSearches {
    meeting: Meeting,
}

impl Gate for HoldsSearches {
    fn pass(&self, place: Place) {
        match place {
            Place::Merge(_) => self.meeting.arrive(),
            Place::Evaluate(..) => self.meeting.wait(),
            Place::Build(_) | Place::Chunk(..) => {}
        }
    }
}

// A copy in one lane, a search in another.
const BESIDE: &[u8] = b"nodes 2\n1 put a x\n1 publish\njoin\n1 copy 2\n2 search 2 x\n";

// A merge that a worker does, while its lane goes on.
const MERGED_BESIDE: &[u8] =
    b"nodes 2\nworkers 1\n1 put a x\n1 publish\n1 put b x\n1 publish\n1 merge 2\n1 search 1 x\n";

#[test]
fn search_beside_copy(rt: HostRuntime) -> Result<(), Fail> {
    let alloc = rt.alloc();
    let gate = HoldsCopies {
        meeting: Meeting::new(),
    };
    let (status, _) = run_gated(&rt, alloc, &gate, &[b"run"], BESIDE, &[], &[])?;
    assert!(rt; status == Status::Done && gate.meeting.was_in_time());
    Ok(())
}

#[test]
fn merge_beside_lane(rt: HostRuntime) -> Result<(), Fail> {
    let alloc = rt.alloc();
    let gate = HoldsSearches {
        meeting: Meeting::new(),
    };
    let (status, _) = run_gated(&rt, alloc, &gate, &[b"run"], MERGED_BESIDE, &[], &[])?;
    assert!(rt; status == Status::Done && gate.meeting.was_in_time());
    Ok(())
}

/// Holds the build of line 7 until line 5 came to its first chunk, and that chunk until line 8 came to its first one.
#[derive(Drop)]
struct Overtakes {
    first: Meeting,
    second: Meeting,
}

impl Gate for Overtakes {
    fn pass(&self, place: Place) {
        match place {
            Place::Chunk(line, ..) => {
                if line.0 == 5 {
                    self.first.arrive();
                    self.second.wait();
                } else {
                    self.second.arrive();
                }
            }
            Place::Build(line) => {
                if line.0 == 7 {
                    self.first.wait();
                }
            }
            Place::Evaluate(..) | Place::Merge(_) => {}
        }
    }
}

/// Holds the evaluation of line 6 until line 5 came to its first chunk, and that chunk until line 8 came to its evaluation.
#[derive(Drop)]
struct CrashesNode {
    first: Meeting,
    second: Meeting,
}

impl Gate for CrashesNode {
    fn pass(&self, place: Place) {
        match place {
            Place::Chunk(..) => {
                self.first.arrive();
                self.second.wait();
            }
            Place::Evaluate(line, _) => {
                if line.0 == 6 {
                    self.first.wait();
                } else {
                    self.second.arrive();
                }
            }
            Place::Build(_) | Place::Merge(_) => {}
        }
    }
}

// A copy that a later one overtakes, which takes over what it has.
const OVERTAKEN: &[u8] =
    b"nodes 2\n1 put a x\n1 publish\njoin\n1 copy 2\n2 put b x\n2 publish\n2 copy 2\n";

// A copy whose node crashes.
const CRASHED: &[u8] =
    b"nodes 2\n1 put a x\n1 publish\njoin\n1 copy 2\n2 search 1 x\n2 crash 2 0\n2 search 1 x\n";

#[test]
fn copy_overtaken(rt: HostRuntime) -> Result<(), Fail> {
    let gate = Overtakes {
        first: Meeting::new(),
        second: Meeting::new(),
    };
    let (status, text) = run_gated(&rt, rt.alloc(), &gate, &[b"run"], OVERTAKEN, &[], &[])?;
    assert!(rt; status == Status::Done && gate.first.was_in_time() && gate.second.was_in_time());
    assert!(rt; has_line(text.as_slice(), b"5 refused cancelled 3"));
    assert!(rt; has_line(text.as_slice(), b"8 switched 2 3"));
    Ok(())
}

#[test]
fn copy_whose_node_crashes(rt: HostRuntime) -> Result<(), Fail> {
    let gate = CrashesNode {
        first: Meeting::new(),
        second: Meeting::new(),
    };
    let (status, text) = run_gated(&rt, rt.alloc(), &gate, &[b"run"], CRASHED, &[], &[])?;
    assert!(rt; status == Status::Done && gate.first.was_in_time() && gate.second.was_in_time());
    assert!(rt; has_line(text.as_slice(), b"5 refused lost"));
    Ok(())
}
