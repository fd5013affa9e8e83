//! A primary that tests play calls on.

ghost use Rattle.std.specs.Prelude.{◌≤◌, OnOk};
ghost use Rattle.nrt_base.specs.SegNumbers.{segments_of_generation};
ghost use Rattle.node_tests.specs.Seeing.{IsSeen, IsEmpty};

use crate::calls::{self, CallOutcome};
use crate::seen::Seen;
use disk_model::{Dir, FaultDir};
use documents::Op;
use index_primary::Primary;
use nrt_base::{Doc, Key, NoMemory, Text};
use std::alloc::Global;
use std::test::Fail;

/// A call of a primary, and what it is to lead to.
#[derive(Clone, Copy)]
pub enum Call {
    /// The key of this number gets a document.
    Put(u8),
    /// The key of this number loses its document.
    Delete(u8),
    Publish(CallOutcome),
    /// A merge of two neighbours starts.
    Start(CallOutcome),
    /// The oldest merge is made.
    Ready(CallOutcome),
    /// The cut-over.
    Cut(CallOutcome),
    /// The k-th call of the directory from now fails.
    Plan(u64),
    /// How many faults the directory met.
    HasMet(u64),
}

/// A primary, and what is seen of it.
struct Bench<D: Dir> {
    primary: Primary<D>,
    seen: Seen,
}

fn check(is_so: bool, why: &'static str) -> Result<(), Fail> {
    if is_so { Ok(()) } else { Err(Fail::new(why)) }
}

fn key_at(alloc: Global, key: u8) -> Result<Key, NoMemory> {
    Key::new(alloc, &[b'a' + key / 16, b'a' + key % 16])
}

fn put_of(alloc: Global, key: u8) -> Result<Op, NoMemory> {
    Ok(Op::Put(Doc {
        key: key_at(alloc, key)?,
        text: Text::new(alloc, b"x")?,
    }))
}

impl<D: FaultDir> Bench<D> {
    fn accept(&mut self, op: Op) -> Result<(), Fail>
        requires { IsSeen self.old.primary self.old.seen }
        ensures { OnOk result (IsSeen self.new.primary self.new.seen) }
    {
        calls::accept(&mut self.primary, &mut self.seen, op)
    }

    fn publish(&mut self, alloc: Global, due: CallOutcome) -> Result<(), Fail>
        requires { IsSeen self.old.primary self.old.seen }
        ensures { OnOk result (IsSeen self.new.primary self.new.seen) }
    {
        let outcome = calls::publish(alloc, &mut self.primary, &mut self.seen)?;
        check(outcome == due, "a publish leads elsewhere")
    }

    fn start(&mut self, alloc: Global, due: CallOutcome) -> Result<(), Fail>
        requires { IsSeen self.old.primary self.old.seen }
        ensures { OnOk result (IsSeen self.new.primary self.new.seen) }
    {
        let outcome = calls::merge_start(alloc, &mut self.primary, &mut self.seen, 2)?;
        check(outcome == due, "a start leads elsewhere")
    }

    fn ready(&mut self, alloc: Global, due: CallOutcome) -> Result<(), Fail>
        requires { IsSeen self.old.primary self.old.seen }
        ensures { OnOk result (IsSeen self.new.primary self.new.seen) }
    {
        let outcome = calls::merge_ready(alloc, &mut self.primary, &mut self.seen)?;
        check(outcome == due, "a merge leads elsewhere")
    }

    fn cut(&mut self, alloc: Global, due: CallOutcome) -> Result<(), Fail>
        requires { IsSeen self.old.primary self.old.seen }
        ensures { OnOk result (IsSeen self.new.primary self.new.seen) }
    {
        let outcome = calls::merge_cut(alloc, &mut self.primary, &mut self.seen)?;
        check(outcome == due, "a cut-over leads elsewhere")
    }

    fn plan(&mut self, k: u64) -> Result<(), Fail>
        requires { IsSeen self.old.primary self.old.seen }
        ensures { OnOk result (IsSeen self.new.primary self.new.seen) }
    {
        if k == 0 {
            return Err(Fail::new("a plan counts from 1"));
        }
        self.primary.plan(k);
        Ok(())
    }

    fn play_one(&mut self, alloc: Global, call: Call) -> Result<(), Fail>
        requires { IsSeen self.old.primary self.old.seen }
        ensures { OnOk result (IsSeen self.new.primary self.new.seen) }
    {
        match call {
            Call::Put(key) => self.accept(put_of(alloc, key)?),
            Call::Delete(key) => self.accept(Op::Delete(key_at(alloc, key)?)),
            Call::Publish(due) => self.publish(alloc, due),
            Call::Start(due) => self.start(alloc, due),
            Call::Ready(due) => self.ready(alloc, due),
            Call::Cut(due) => self.cut(alloc, due),
            Call::Plan(k) => self.plan(k),
            Call::HasMet(due) => check(self.primary.kinds().0 == due, "other faults are met"),
        }
    }

    fn play(&mut self, alloc: Global, calls: &[Call]) -> Result<(), Fail>
        requires { IsSeen self.old.primary self.old.seen }
    {
        for call in calls {
            self.play_one(alloc, *call)?;
        }
        Ok(())
    }
}

/// Plays calls of a primary on an empty directory that has drawn so many names.
pub fn run<D: FaultDir + Drop>(
    alloc: Global,
    dir: D,
    drawn: u32,
    calls: &[Call],
) -> Result<(), Fail>
    requires empty { IsEmpty (D.cells dir) }
    requires drawn { drawn ≤ segments_of_generation }
{
    let (primary, seen) = calls::start(alloc, dir, drawn)?;
    let mut bench = Bench { primary, seen };
    let played = bench.play(alloc, calls);
    let Bench { primary, seen: _ } = bench;
    drop(primary.into_dir());
    played
}
