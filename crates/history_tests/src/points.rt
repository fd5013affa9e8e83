//! A worked history and its points.

ghost use Rattle.std.specs.Prelude.{IsTrue};
ghost use Rattle.nrt_base.specs.Bytes.{is_key, is_text};

use documents::Op;
use history_rules::{Entry, Event, History, laws};
use nrt_base::{At, Doc, Gen, Key, LaneNo, LineNo, List, NoMemory, Text, Version};
use point_history::{operations, points};
use std::alloc::Global;
use std::test::Fail;

fn doc(alloc: Global, key: &[u8], text: &[u8]) -> Result<Doc, NoMemory>
    requires key { IsTrue (is_key key.now) }
    requires text { IsTrue (is_text text.now) }
{
    Ok(Doc {
        key: Key::new(alloc, key)?,
        text: Text::new(alloc, text)?,
    })
}

#[test]
fn a_publish_makes_a_point(rt: HostRuntime) -> Result<(), Fail> {
    let alloc = rt.alloc();
    let at = At {
        lane: LaneNo(1),
        line: LineNo(2),
    };
    let publish = At {
        lane: LaneNo(1),
        line: LineNo(3),
    };
    let op = Op::Put(doc(alloc, b"a", b"red fox")?);
    let mut entries = List::from_vec(Vec::new(alloc));
    entries.push(Entry {
        at,
        event: Event::Accepted { seq: 1, op },
    })?;
    entries.push(Entry {
        at: publish,
        event: Event::Publishing,
    })?;
    entries.push(Entry {
        at: publish,
        event: Event::Published {
            generation: Gen(1),
            v: Version(2),
        },
    })?;
    let h = History { nodes: 1, entries };
    laws::points_are_fixed(&h);
    let points = points(alloc, &h)?;
    assert_eq!(rt; points.len(), 2);
    assert_eq!(rt; points[0].docs.as_slice().len(), 0);
    assert_eq!(rt; points[1].version, Version(2));
    assert_eq!(rt; points[1].docs.as_slice().len(), 1);
    assert_eq!(rt; operations(&h, Version(1)), Some(0));
    assert_eq!(rt; operations(&h, Version(2)), Some(1));
    assert_eq!(rt; operations(&h, Version(3)), None);
    Ok(())
}
