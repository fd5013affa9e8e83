//! A log that is stopped at each call of an append, and the bytes of a record.

ghost use Rattle.std.specs.Prelude.{◌≡◌, ◌<◌, true, Ok, IfOk};
ghost use Rattle.trans_log.specs.Logs.{IsOpenLog};

use bytes::Bytes;
use disk_memory::MemDir;
use disk_model::{Dir, FaultDir};
use documents::Op;
use file_names::{FileName, file_name};
use nrt_base::{Doc, Gen, Key, NoMemory, Text};
use std::alloc::Global;
use std::test::Fail;
use trans_log::{LogOp, TransLog};

// The put of `a` with the text `x`, which has this number in generation 1.
fn put(alloc: Global, seq: u32) -> Result<LogOp, NoMemory> {
    Ok(LogOp {
        generation: Gen(1),
        seq,
        op: Op::Put(Doc {
            key: Key::new(alloc, b"a")?,
            text: Text::new(alloc, b"x")?,
        }),
    })
}

// The log of a directory.
fn opened<D: Dir + Drop>(alloc: Global, dir: D) -> Result<TransLog<D>, Fail>
    ensures { IfOk result (λ log. IsOpenLog (D.cells log.dir) log.records.items) }
{
    match TransLog::start(alloc, dir) {
        Ok(log) => Ok(log),
        Err(refused) => Err(Fail::from(refused.fault)),
    }
}

// Whether an append is answered, where the log has room.
fn add<D: Dir>(log: &mut TransLog<D>, entry: &LogOp) -> Result<bool, Fail>
    requires { IsOpenLog (D.cells log.old.dir) log.old.records.items }
    ensures { result ≡ Ok true → IsOpenLog (D.cells log.new.dir) log.new.records.items }
{
    if log.ended() || log.len() == u32::MAX {
        return Err(Fail::new("the log has ended"));
    }
    Ok(log.append(entry).is_ok())
}

// A log of one record, in an empty directory.
fn log_of_one(alloc: Global) -> Result<TransLog<MemDir>, Fail> {
    let mut log = opened(alloc, MemDir::new(alloc)?)?;
    if !add(&mut log, &put(alloc, 1)?)? {
        return Err(Fail::new("the first append is refused"));
    }
    Ok(log)
}

// A second append is stopped at this call, counted from the opening on. Whether it is answered, and how many records are found after
// a crash.
fn found_after(alloc: Global, stop: u64, pick: u64) -> Result<(bool, u32), Fail>
    requires { 0 < stop }
{
    let mut dir = log_of_one(alloc)?.into_dir();
    dir.stop_at(stop);
    let mut log = opened(alloc, dir)?;
    let answered = add(&mut log, &put(alloc, 2)?)?;
    let mut dir = log.into_dir();
    dir.crash(pick)?;
    Ok((answered, opened(alloc, dir)?.len()))
}

// The first two calls are the opening's.
#[test]
fn records_found_after_a_stop(rt: HostRuntime) -> Result<(), Fail> {
    let table = [
        (3, false, 1, 1),
        (4, false, 1, 1),
        (5, false, 1, 2),
        (6, false, 2, 1),
        (7, true, 2, 2),
    ];
    for (stop, answered, last, first) in table {
        assert!(rt; stop > 0);
        assert_eq!(rt;
            found_after(rt.alloc(), stop, 0)?,
            (answered, last),
            "call {stop}, pick 0"
        );
        assert_eq!(rt;
            found_after(rt.alloc(), stop, 1)?,
            (answered, first),
            "call {stop}, pick 1"
        );
    }
    Ok(())
}

fn first_name() -> Result<FileName, Fail> {
    file_name(b"log_1").map_err(|_| Fail::from("no name"))
}

// Whether a log is opened on a directory that has this file alone.
fn opens(alloc: Global, file: &[u8]) -> Result<bool, Fail> {
    let mut dir = MemDir::new(alloc)?;
    dir.write_new(&first_name()?, Bytes::copy_from_slice(alloc, file)?)?;
    Ok(TransLog::start(alloc, dir).is_ok())
}

#[test]
fn each_byte_of_a_file_counts(rt: HostRuntime) -> Result<(), Fail> {
    let alloc = rt.alloc();
    let mut dir = log_of_one(alloc)?.into_dir();
    let file = dir.load(&first_name()?)?;
    assert_eq!(rt; file.len(), 65);
    for at in 0..file.len() {
        let mut altered = file.to_vec(alloc)?;
        altered[at] ^= 1;
        assert!(rt; !opens(alloc, &altered)?, "byte {at}");
        assert!(rt; !opens(alloc, &file[..at])?, "the first {at} bytes");
    }
    Ok(())
}
