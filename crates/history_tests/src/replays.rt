//! Replays that are right, and such as leave out the last record, repeat one, or have another line's entry between.

use documents::Op;
use history_rules::{Entry, Event};
use nrt_base::{At, Key, LaneNo, LineNo, NoMemory};
use serving_rules::begins_with_replay;
use std::alloc::Global;

fn place(line: u32) -> At {
    At {
        lane: LaneNo(1),
        line: LineNo(line),
    }
}

fn delete(alloc: Global, key: u8) -> Result<Op, NoMemory> {
    if key == b'a' {
        Ok(Op::Delete(Key::new(alloc, b"a")?))
    } else {
        Ok(Op::Delete(Key::new(alloc, b"b")?))
    }
}

// The operations that are due.
fn due(alloc: Global) -> Result<Vec<Op>, NoMemory> {
    let mut ops = Vec::new(alloc);
    ops.push(delete(alloc, b'a')?)?;
    ops.push(delete(alloc, b'b')?)?;
    Ok(ops)
}

// Entries that accept the deletes of these keys, each for a line.
fn accepted(alloc: Global, keys: &[(u32, u8)]) -> Result<Vec<Entry>, NoMemory> {
    let mut entries = Vec::new(alloc);
    for (line, key) in keys {
        let op = delete(alloc, *key)?;
        entries.push(Entry {
            at: place(*line),
            event: Event::Accepted { seq: 1, op },
        })?;
    }
    Ok(entries)
}

#[test]
fn replays(rt: HostRuntime) -> Result<(), NoMemory> {
    let alloc = rt.alloc();
    let ops = due(alloc)?;
    let table: [(&[(u32, u8)], bool); 6] = [
        (&[(9, b'a'), (9, b'b')], true),
        (&[(9, b'a'), (9, b'b'), (4, b'a')], true),
        (&[(9, b'a')], false),
        (&[(9, b'a'), (9, b'a'), (9, b'b')], false),
        (&[(9, b'a'), (9, b'b'), (9, b'b')], false),
        (&[(9, b'a'), (4, b'b'), (9, b'b')], false),
    ];
    for (keys, right) in table {
        let entries = accepted(alloc, keys)?;
        assert_eq!(rt; begins_with_replay(place(9), &ops, &entries), right);
    }
    Ok(())
}
