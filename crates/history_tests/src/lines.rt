//! The lines of entries that few runs make.

use file_names::commit_name;
use history_rules::{Cause, Entry, Event, FaultKind, FaultPlan, History};
use nrt_base::{At, LaneNo, LineNo, List, NodeNo};
use report_text::{line, report};
use std::test::Fail;

const N: NodeNo = NodeNo(2);

fn entry(event: Event) -> Entry {
    Entry {
        at: At {
            lane: LaneNo(1),
            line: LineNo(17),
        },
        event,
    }
}

fn fault(kind: FaultKind) -> Event {
    Event::Fault { n: N, kind }
}

fn planned(plan: FaultPlan) -> Event {
    Event::Planned { n: N, plan }
}

fn refused(cause: Cause) -> Event {
    Event::Refused { cause }
}

#[test]
fn entries_of_faults(rt: HostRuntime) -> Result<(), Fail> {
    for (event, text) in [
        (fault(FaultKind::Link), b"17 fault 2 link\n".as_slice()),
        (fault(FaultKind::Damage), b"17 fault 2 damage\n".as_slice()),
        (fault(FaultKind::Disk), b"17 fault 2 disk\n".as_slice()),
        (fault(FaultKind::Stop), b"17 fault 2 stop\n".as_slice()),
        (
            planned(FaultPlan::Link(5)),
            b"17 planned link 2 5\n".as_slice(),
        ),
        (
            planned(FaultPlan::Damage(5, 9)),
            b"17 planned damage 2 5 9\n".as_slice(),
        ),
        (
            planned(FaultPlan::Disk(5)),
            b"17 planned disk 2 5\n".as_slice(),
        ),
        (
            planned(FaultPlan::Stop(5)),
            b"17 planned stop 2 5\n".as_slice(),
        ),
        (
            refused(Cause::LinkFault),
            b"17 refused link-fault\n".as_slice(),
        ),
        (
            refused(Cause::Damaged(commit_name(1))),
            b"17 refused damaged segments_1\n".as_slice(),
        ),
        (
            refused(Cause::DiskFault),
            b"17 refused disk-fault\n".as_slice(),
        ),
        (
            refused(Cause::NamesSpent),
            b"17 refused names-spent\n".as_slice(),
        ),
        (
            refused(Cause::TooManySegments),
            b"17 refused too-many-segments\n".as_slice(),
        ),
    ] {
        let shown = line(rt.alloc(), &entry(event))?;
        assert_eq!(rt; shown.as_slice(), text);
    }
    Ok(())
}

#[test]
fn report_of_two_entries(rt: HostRuntime) -> Result<(), Fail> {
    let mut entries = List::from_vec(Vec::new(rt.alloc()));
    entries.push(entry(Event::Publishing))?;
    entries.push(entry(refused(Cause::DiskFault)))?;
    let text = report(rt.alloc(), &History { nodes: 2, entries })?;
    let due = b"17 publishing\n17 refused disk-fault\n";
    assert_eq!(rt; text.as_slice(), due.as_slice());
    Ok(())
}
