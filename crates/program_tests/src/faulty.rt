//! Planned faults: whatever fails, the report is legal.

use crate::lanes::Meeting;
use crate::running::{each_ends, has_line, is_legal_report, report_of, run_gated};
use nrt_commands::{Gate, Place};
use std::alloc::Global;
use std::sync::Wait;
use std::test::Fail;
use std::thread::Threads;
use stream_commands::Status;

/// Whether the report of a script is judged to be legal.
fn is_legal<R: Threads + Wait + Sync>(rt: &R, alloc: Global, script: &[u8]) -> Result<bool, Fail> {
    let report = report_of(rt, alloc, script)?;
    is_legal_report(rt, alloc, script, report.as_slice())
}

// A publish whose first file cannot be made: its operation stays for the next one.
const PUBLISH: &[u8] =
    b"nodes 2\n1 put a x\n1 fault disk 1 1\n1 publish\n1 publish\n1 search 1 x\n";

// A copy whose second part cannot be written: the next one takes the first over.
const COPY: &[u8] =
    b"nodes 2\n1 put a x\n1 publish\n1 fault disk 2 2\n1 copy 2\n1 files 2\n1 copy 2\n";

// A reopening whose first call fails leaves its node down.
const REOPEN: &[u8] =
    b"nodes 2\n1 put a x\n1 publish\n1 copy 2\n1 crash 2 0\n1 fault disk 2 1\n1 reopen 2\n1 reopen 2\n";

// The removal of the older commit's file fails: the commit is made.
const REMOVAL: &[u8] =
    b"nodes 2\n1 put a x\n1 publish\n1 copy 2\n1 commit 2\n1 put b x\n1 publish\n1 copy 2\n1 fault stop 2 7\n1 commit 2\n";

// The link fails at the second part; the next copy takes over the first, and brings two, before the plan's third.
const LINK: &[u8] =
    b"nodes 2\n1 put a x\n1 publish\n1 fault link 2 2\n1 copy 2\n1 fault link 2 3\n1 copy 2\n1 files 2\n";

// A part is damaged, then the second one of the next copy; the third copy takes the first one over.
const DAMAGE: &[u8] =
    b"nodes 2\n1 put a x\n1 publish\n1 fault damage 2 1 36\n1 copy 2\n1 fault damage 2 2 80\n1 copy 2\n1 copy 2\n1 search 2 x\n";

#[test]
fn rows_of_faults(rt: HostRuntime) -> Result<(), Fail> {
    let rows: &[(&[u8], &[u8])] = &[
        (
            PUBLISH,
            b"2 accepted 1\n3 planned disk 1 1\n4 publishing\n4 fault 1 disk\n4 refused disk-fault\n5 publishing\n5 published 1 2\n6 opened 1 0 2\n6 answer 1 0 2 1 1:a\n",
        ),
        (
            COPY,
            b"\n4 planned disk 2 2\n5 copying 2 2\n5 fault 2 disk\n5 refused disk-fault\n6 files 2 _10000.docs_1.tmp\n7 copying 2 2\n7 switched 2 2\n7 copied 2 2\n",
        ),
        (
            REOPEN,
            b"\n5 crashed 2\n6 planned disk 2 1\n7 fault 2 disk\n7 refused disk-fault\n8 reopened 2 1\n",
        ),
        (
            REMOVAL,
            b"\n9 planned stop 2 7\n10 committing 2 3\n10 fault 2 stop\n10 committed 2 3\n",
        ),
        (
            LINK,
            b"\n4 planned link 2 2\n5 copying 2 2\n5 fault 2 link\n5 refused link-fault\n6 planned link 2 3\n7 copying 2 2\n7 switched 2 2\n7 copied 2 2\n8 files 2 _10000.docs _10000.post _10000.si\n",
        ),
        (
            DAMAGE,
            b"\n4 planned damage 2 1 36\n5 copying 2 2\n5 fault 2 damage\n5 refused damaged _10000.docs\n6 planned damage 2 2 80\n7 copying 2 2\n7 fault 2 damage\n7 refused damaged _10000.post\n8 copying 2 2\n8 switched 2 2\n8 copied 2 2\n9 opened 2 0 2\n9 answer 2 0 2 1 1:a\n",
        ),
    ];
    each_ends(&rt, rt.alloc(), rows)
}

// A commit of version 2, and version 3 at the node.
const COMMITTED: &str =
    "nodes 2\n1 put a x\n1 publish\n1 copy 2\n1 commit 2\n1 put b x\n1 publish\n1 copy 2\n";

// The call of the second commit at which the disk stops, what a crash keeps then, and the version that is found.
const STOPS: [(u32, u32, u32); 14] = [
    (1, 0, 2),
    (2, 0, 2),
    (3, 0, 2),
    (4, 0, 2),
    (5, 0, 2),
    (6, 0, 3),
    (7, 0, 3),
    (1, 1, 2),
    (2, 1, 2),
    (3, 1, 2),
    (4, 1, 2),
    (5, 1, 3),
    (6, 1, 2),
    (7, 1, 3),
];

#[test]
fn stopped_commits(rt: HostRuntime) -> Result<(), Fail> {
    let alloc = rt.alloc();
    for (call, pick, version) in STOPS {
        let script = format!(in alloc;
            "{COMMITTED}1 fault stop 2 {call}\n1 commit 2\n1 crash 2 {pick}\n1 reopen 2\n"
        )?;
        let text = report_of(&rt, alloc, script.as_bytes())?;
        let wanted = format!(in alloc; "\n12 reopened 2 {version}\n")?;
        assert!(rt; text.ends_with(wanted.as_bytes()));
    }
    Ok(())
}

// Two publishes, a copy, a commit, a crash, a reopening and a search.
const LIVES: &[u8] =
    b"1 put a x\n1 publish\n1 put b x\n1 publish\n1 copy 2\n1 commit 2\n1 crash 2 0\n1 reopen 2\n1 search 2 x\n";

// The same with a ticket, a merge, a settle, commits of both nodes and a promotion.
const MERGES: &[u8] =
    b"1 put a x\n1 publish\n1 open 1 3\n1 put b x\n1 publish\n1 settle\n1 merge 2\n1 drain 9\n1 publish\n1 close 3\n1 commit 1\n1 commit 2\n1 commit 1\n1 commit 2\n1 settle\n1 crash 1 0\n1 promote 2 auto\n1 put c x\n1 publish\n1 reopen 1\n1 copy 1\n1 search 1 x\n1 files 1\n1 files 2\n";

#[test]
fn faults_of_each_kind(rt: HostRuntime) -> Result<(), Fail> {
    let alloc = rt.alloc();
    for (kind, place) in [("disk", ""), ("stop", ""), ("link", ""), ("damage", " 37")] {
        for node in 1..=2u32 {
            for call in 1..=20u32 {
                for rest in [LIVES, MERGES] {
                    let plan = format!(in alloc; "nodes 2\n1 fault {kind} {node} {call}{place}\n")?;
                    let mut script = plan.as_bytes().to_vec(alloc)?;
                    script.extend_from_slice(rest)?;
                    assert!(rt; is_legal(&rt, alloc, script.as_slice())?);
                }
            }
        }
    }
    Ok(())
}

// Each lane, and the node whose disk it lets fail and that it commits.
const LANES: [(u32, u32); 8] = [
    (1, 1),
    (2, 2),
    (3, 3),
    (4, 1),
    (5, 2),
    (6, 3),
    (7, 1),
    (8, 2),
];

/// A script whose eight lanes put, search, copy, publish, commit and merge at the same time while disks fail.
fn eight_lanes(alloc: Global) -> Result<Vec<u8>, Fail> {
    let mut script = b"nodes 3\nworkers 4\n".to_vec(alloc)?;
    for turn in 1..=20u32 {
        for (lane, node) in LANES {
            let line = match turn % 10 {
                1 | 6 => format!(in alloc; "{lane} put {lane}-{turn} wide w1\n")?,
                2 | 7 => format!(in alloc; "{lane} fault disk {node} {turn}\n")?,
                3 | 8 => format!(in alloc; "{lane} copy 2\n")?,
                4 | 9 => format!(in alloc; "{lane} commit {node}\n")?,
                5 => format!(in alloc; "{lane} publish\n")?,
                _ => format!(in alloc; "{lane} merge 2\n")?,
            };
            script.extend_from_slice(line.as_bytes())?;
        }
    }
    Ok(script)
}

#[test]
fn eight_lanes_and_faults(rt: HostRuntime) -> Result<(), Fail> {
    let alloc = rt.alloc();
    let script = eight_lanes(alloc)?;
    assert!(rt; is_legal(&rt, alloc, script.as_slice())?);
    Ok(())
}

/// Holds the build of line 7 until line 5 came to a chunk, and that chunk until the search of line 10.
#[derive(Drop)]
struct HoldsOlder {
    first: Meeting,
    second: Meeting,
}

impl Gate for HoldsOlder {
    fn pass(&self, place: Place) {
        match place {
            Place::Chunk(..) => {
                self.first.arrive();
                self.second.wait();
            }
            Place::Build(line) => {
                if line.0 == 7 {
                    self.first.wait();
                }
            }
            Place::Evaluate(..) => self.second.arrive(),
            Place::Merge(_) => {}
        }
    }
}

// A copy of version 3 that is refused as the disk of its source fails, beside one of version 2, which goes on.
const NOT_OVERTAKEN: &[u8] =
    b"nodes 2\n1 put a x\n1 publish\njoin\n1 copy 2\n2 put b x\n2 publish\n2 fault disk 1 1\n2 copy 2\n2 search 1 x\n";

#[test]
fn copy_not_overtaken(rt: HostRuntime) -> Result<(), Fail> {
    let gate = HoldsOlder {
        first: Meeting::new(),
        second: Meeting::new(),
    };
    let (status, text) = run_gated(&rt, rt.alloc(), &gate, &[b"run"], NOT_OVERTAKEN, &[], &[])?;
    assert!(rt; status == Status::Done && gate.first.was_in_time() && gate.second.was_in_time());
    assert!(rt; has_line(text.as_slice(), b"9 refused disk-fault"));
    assert!(rt; has_line(text.as_slice(), b"5 switched 2 2"));
    Ok(())
}
