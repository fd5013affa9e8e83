//! Files that come over in frames.

ghost use Rattle.std.specs.Prelude.{◌≡◌, ◌+◌, ◌<◌, length, IfOk};

use bytes::Bytes;
use file_names::file_name;
use link_model::{Fate, Link, MemLink};
use nrt_base::NoMemory;
use std::alloc::Global;
use std::test::Fail;
use wire_link::WireLink;

// A file of one byte more than this.
fn file(alloc: Global, size: usize) -> Result<Bytes, NoMemory>
    requires { size < 100_000 }
    ensures { IfOk result (λ file. length file ≡ size + 1) }
{
    let mut bytes = Vec::with_capacity(alloc, size + 1)?;
    for k in 0..size + 1 {
        bytes.push((k % 251) as u8)?;
    }
    Ok(Bytes::from_vec(bytes)?)
}

// Where the first bytes of such a file arrive in another way than they are sent, and how often the link told of damage.
fn differences(alloc: Global, size: usize, fate: Fate) -> Result<(Vec<usize>, u64), Fail>
    requires { size < 100_000 }
{
    let file = file(alloc, size)?;
    let name = file_name(b"a").ok().ok_or("a name")?;
    let mut link = WireLink::new(alloc, MemLink::new(alloc).with_fate(fate), name);
    link.begin(&file).ok().ok_or("a file")?;
    let read = link.fetch(0, size).ok().ok_or("bytes")?;
    let mut places = Vec::new(alloc);
    for k in 0..size {
        if read.as_slice().get(k) != Some(&((k % 251) as u8)) {
            places.push(k)?;
        }
    }
    Ok((places, link.damages()))
}

#[test]
fn files_come_over_equal(rt: HostRuntime) -> Result<(), Fail> {
    for size in [0, 1, 32_768, 32_769, 70_000] {
        let (places, damages) = differences(rt.alloc(), size, Fate::Whole)?;
        assert!(rt; places.is_empty() && damages == 0);
    }
    Ok(())
}

#[test]
fn damage_comes_over(rt: HostRuntime) -> Result<(), Fail> {
    let (places, damages) = differences(rt.alloc(), 70_000, Fate::Damage(40_000))?;
    assert_eq!(rt; (places.as_slice(), damages), ([40_000].as_slice(), 1));
    Ok(())
}
