//! What each command answers and writes.

use crate::running::{PLAIN, run, words};
use nrt_base::LineNo;
use nrt_commands::{OpenGate, let_go, run_nrt};
use nrt_streams::{MemSink, MemSource};
use script_text::{LONGEST, LineFault};
use std::alloc::Global;
use std::sync::Wait;
use std::test::Fail;
use std::thread::Threads;
use stream_commands::Status;
use text_query::QueryFault;

const REPORT: &[u8] =
    b"2 accepted 1\n3 publishing\n3 published 1 2\n4 copying 2 2\n4 switched 2 2\n4 copied 2 2\n5 opened 2 0 2\n5 answer 2 0 2 1 1:a\n";

#[test]
fn plain_path(rt: HostRuntime) -> Result<(), Fail> {
    let (status, text) = run(&rt, rt.alloc(), &[b"run"], PLAIN, &[], &[])?;
    assert_eq!(rt; status, Status::Done);
    assert_eq!(rt; text.as_slice(), REPORT);
    Ok(())
}

#[test]
fn statuses(rt: HostRuntime) -> Result<(), Fail> {
    let alloc = rt.alloc();
    let rows: &[(&[&[u8]], &[u64], &[u64], Status)] = &[
        (&[b"run"], &[2], &[], Status::ReadFault),
        (&[b"run"], &[], &[1], Status::WriteFault),
        (&[b"run", b"x"], &[], &[], Status::Usage),
        (&[], &[], &[], Status::Usage),
    ];
    for (texts, reads, writes, wanted) in rows {
        let (status, text) = run(&rt, alloc, texts, PLAIN, reads, writes)?;
        assert_eq!(rt; status, *wanted);
        assert!(rt; text.is_empty());
    }
    Ok(())
}

const NOTICE: &[u8] = b"\0\0\0\x11\x01\0\0\0\0\0\0\0\x01\0\0\0\0\0\0\0\x02";

const NOTICE_AND_MORE: &[u8] = b"\0\0\0\x11\x01\0\0\0\0\0\0\0\x01\0\0\0\0\0\0\0\x02\0";

// A notice, a completed name and a chunk of one byte.
const MESSAGES: &[u8] =
    b"\0\0\0\x11\x01\0\0\0\0\0\0\0\x01\0\0\0\0\0\0\0\x02\0\0\0\x03\x04\x01a\0\0\0\x0c\x05\x01a\0\0\0\0\0\0\0\x07x";

#[test]
fn frames(rt: HostRuntime) -> Result<(), Fail> {
    let rows: &[(&[u8], &[u64], &[u64], Status, &[u8])] = &[
        (NOTICE, &[], &[], Status::Done, b"notice 1 2\n"),
        (
            MESSAGES,
            &[],
            &[],
            Status::Done,
            b"notice 1 2\ncompleted a\nchunk a 7 1\n",
        ),
        (b"", &[], &[], Status::Done, b""),
        (NOTICE, &[2], &[], Status::ReadFault, b""),
        (NOTICE, &[], &[2], Status::WriteFault, b"not"),
        (b"\0\0\0\0", &[], &[], Status::BadStream(1), b""),
        (b"\0\0\0\x01\x09", &[], &[], Status::BadStream(2), b""),
        (b"\0\0\0\x01\x01", &[], &[], Status::BadStream(3), b""),
        (b"\0\0\0", &[], &[], Status::BadStream(4), b""),
        (NOTICE_AND_MORE, &[], &[], Status::BadStream(4), b""),
    ];
    for (stream, reads, writes, wanted, text) in rows {
        let (status, written) = run(&rt, rt.alloc(), &[b"frames"], stream, reads, writes)?;
        assert_eq!(rt; status, *wanted);
        assert_eq!(rt; written.as_slice(), *text);
    }
    Ok(())
}

// The image of one empty file of infos.
const EMPTY_INFOS: &[u8] = b"\0\0\0\x01\x0asegments_1\0\0\0\0";

#[test]
fn check(rt: HostRuntime) -> Result<(), Fail> {
    let rows: &[(&[u8], &[u64], &[u64], Status, &[u8])] = &[
        (b"\0\0\0\0", &[], &[], Status::Done, b"check none\n"),
        (b"\0\0\0", &[], &[], Status::BadImage, b""),
        (
            EMPTY_INFOS,
            &[],
            &[],
            Status::BadIndex,
            b"check fault segments_1 3\n",
        ),
        (EMPTY_INFOS, &[2], &[], Status::ReadFault, b""),
        (EMPTY_INFOS, &[], &[2], Status::WriteFault, b"che"),
    ];
    for (image, reads, writes, wanted, text) in rows {
        let (status, written) = run(&rt, rt.alloc(), &[b"check"], image, reads, writes)?;
        assert_eq!(rt; status, *wanted);
        assert_eq!(rt; written.as_slice(), *text);
    }
    Ok(())
}

const ONE_COMMIT: &[u8] = b"nodes 2\n1 put a x\n1 publish\n1 commit 1\n";

// The image of a node that has committed, and of one that has not, as they are checked; and a node that the script lacks.
#[test]
fn images(rt: HostRuntime) -> Result<(), Fail> {
    let rows: &[(&[u8], Status, &[u8])] = &[
        (
            b"1",
            Status::Done,
            b"check commit 1 version 2 segments 1 documents 1\n",
        ),
        (b"2", Status::Done, b"check none\n"),
        (b"3", Status::NoSuchNode, b""),
    ];
    for (node, wanted, line) in rows {
        let (status, image) = run(&rt, rt.alloc(), &[b"image", node], ONE_COMMIT, &[], &[])?;
        assert_eq!(rt; status, *wanted);
        let (_, text) = run(&rt, rt.alloc(), &[b"check"], image.as_slice(), &[], &[])?;
        assert_eq!(rt; text.as_slice(), *line);
    }
    Ok(())
}

// A copy to the primary, to a replica, and to a node that the script lacks; the frames of each are told.
#[test]
fn sends(rt: HostRuntime) -> Result<(), Fail> {
    let rows: &[(&[u8], Status, bool)] = &[
        (b"1", Status::NoCopy, true),
        (b"2", Status::Done, false),
        (b"3", Status::NoSuchNode, true),
    ];
    for (node, wanted, none) in rows {
        let (status, stream) = run(&rt, rt.alloc(), &[b"send", node], ONE_COMMIT, &[], &[])?;
        assert_eq!(rt; status, *wanted);
        assert!(rt; stream.is_empty() == *none);
        let (told, text) = run(&rt, rt.alloc(), &[b"frames"], stream.as_slice(), &[], &[])?;
        assert_eq!(rt; told, Status::Done);
        assert!(rt; text.is_empty() == *none);
    }
    Ok(())
}

const SUMMARY: &[u8] = b"load 100\ndocuments 90\na0 13\na0 AND b0 1\n\"a1 b1\" 2\n";

// The lanes of a load of 400 documents merge twice.
const SUMMARY_MERGED: &[u8] = b"load 400\ndocuments 360\na0 52\na0 AND b0 5\n\"a1 b1\" 5\n";

#[test]
fn loads(rt: HostRuntime) -> Result<(), Fail> {
    let rows: &[(&[u8], Status, &[u8])] = &[
        (b"100", Status::Done, SUMMARY),
        (b"0", Status::Usage, b""),
        (b"007", Status::Usage, b""),
        (b"10001", Status::Usage, b""),
        (b"400", Status::Done, SUMMARY_MERGED),
    ];
    for (number, wanted, summary) in rows {
        let (status, text) = run(&rt, rt.alloc(), &[b"load", number], b"", &[], &[])?;
        assert_eq!(rt; status, *wanted);
        assert_eq!(rt; text.as_slice(), *summary);
    }
    Ok(())
}

#[test]
fn refused_lines(rt: HostRuntime) -> Result<(), Fail> {
    let rows: &[(&[u8], u32, LineFault)] = &[
        (b"", 1, LineFault::NoNodes),
        (b"nodes 1", 1, LineFault::Range),
        (b"nodes 2\n1 jump", 2, LineFault::Word),
        (b"nodes 2\n1 publish now", 2, LineFault::Count),
        (b"nodes 2\n9 publish", 2, LineFault::Range),
        (
            b"nodes 2\n1 search 2 fox AND",
            2,
            LineFault::Query(QueryFault::Syntax(7)),
        ),
        (b"nodes 2\n1 put a\t", 2, LineFault::Text),
        (b"nodes 2\n1 drop", 2, LineFault::Count),
        (b"nodes 2\n1 drop a-b", 2, LineFault::Range),
        (
            b"# two\n nodes  2 \n\n   \n1 publish\n\t",
            6,
            LineFault::Text,
        ),
    ];
    for (script, line, cause) in rows {
        let (status, text) = run(&rt, rt.alloc(), &[b"run"], script, &[], &[])?;
        assert_eq!(rt; status, Status::BadScript(LineNo(*line), *cause));
        assert!(rt; text.is_empty());
    }
    Ok(())
}

/// The answer to so many line feeds.
fn line_feeds<R: Threads + Wait + Sync>(
    rt: &R,
    alloc: Global,
    count: usize,
) -> Result<Status, Fail> {
    let words = words(alloc, &[b"run"])?;
    let mut source = MemSource::new(vec![in alloc; b'\n'; count]?, 4096, Vec::new(alloc));
    let mut sink = MemSink::new(alloc, 0, 1, Vec::new(alloc))?;
    let mut kept = None;
    let status = run_nrt(
        rt,
        alloc,
        words.as_slice(),
        &mut source,
        &mut sink,
        &OpenGate,
        &mut kept,
    );
    let_go(kept);
    Ok(status)
}

#[test]
fn longest_script(rt: HostRuntime) -> Result<(), Fail> {
    let full = line_feeds(&rt, rt.alloc(), LONGEST)?;
    assert_eq!(rt;
        full,
        Status::BadScript(LineNo(16_777_217), LineFault::NoNodes)
    );
    let over = line_feeds(&rt, rt.alloc(), LONGEST + 1)?;
    assert_eq!(rt; over, Status::TooLarge);
    Ok(())
}

/// A script of 40 lines.
fn forty_lines(alloc: Global) -> Result<Vec<u8>, Fail> {
    let mut script = b"nodes 2\n".to_vec(alloc)?;
    for _ in 0..13 {
        script.extend_from_slice(b"1 put a x\n1 publish\n1 search 1 x\n")?;
    }
    Ok(script)
}

#[test]
fn each_prefix(rt: HostRuntime) -> Result<(), Fail> {
    let script = forty_lines(rt.alloc())?;
    for count in 0..script.len() {
        let (status, text) = run(&rt, rt.alloc(), &[b"run"], &script[..count], &[], &[])?;
        match status {
            Status::Done => {}
            Status::BadScript(..) => assert!(rt; text.is_empty()),
            _ => assert!(rt; false),
        }
    }
    Ok(())
}
