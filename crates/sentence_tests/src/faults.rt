//! What faults of directories, links, nodes, checks and streams say.

use codec_frame::{FileFault, FrameFault};
use commit_steps::{CommitFault, RecoverFault};
use copy_job::JobFault;
use copy_state::{FileMetaData, MetaFault};
use disk_model::DirFault;
use file_deleter::HoldFault;
use file_names::commit_name;
use index_check::{CheckFault, ImageFault};
use index_primary::{PrimaryFault, PublishFault};
use link_model::LinkFault;
use nrt_base::{Gen, Key, NameBytes};
use promotion::PromoteFault;
use replica_opening::{LoadFault, StartFault};
use seg_reader::{SegFault, SegFile};
use std::alloc::{AllocError, Global};
use std::error::Error;
use std::test::Fail;
use trans_log::LogFault;
use wire_frames::{FramesEnd, StateFault, WireFault};

const MAGIC: FileFault = FileFault::Frame(FrameFault::Magic);

fn said<E: Error>(alloc: Global, fault: E) -> Result<String, AllocError> {
    fault.to_string(alloc)
}

#[test]
fn directories_and_commits(rt: HostRuntime) -> Result<(), Fail> {
    let alloc = rt.alloc();
    let name = commit_name(1);
    for (fault, want) in [
        (DirFault::Memory, "out of memory"),
        (DirFault::Missing, "the file does not exist"),
        (DirFault::Exists, "a file of this name exists already"),
        (DirFault::Failed, "the disk failed"),
    ] {
        assert_eq!(rt; said(alloc, fault)?.as_str(), want);
    }
    let absent = "the file segments_1 does not exist";
    assert_eq!(rt; said(alloc, HoldFault::Absent(name))?.as_str(), absent);
    assert_eq!(rt;
        said(alloc, CommitFault::Failed)?.as_str(),
        "the disk failed"
    );
    for (fault, want) in [
        (
            RecoverFault::Broken(name, MAGIC),
            "the last commit cannot be read: segments_1: the file does not begin with the magic number 3fd76c17",
        ),
        (
            RecoverFault::Gone(name),
            "the last commit needs the file segments_1, which does not exist",
        ),
    ] {
        assert_eq!(rt; said(alloc, fault)?.as_str(), want);
        assert_eq!(rt; said(alloc, StartFault::Recover(fault))?.as_str(), want);
    }
    let broken =
        "a record of the log cannot be read: segments_1: the file does not begin with the magic number 3fd76c17";
    assert_eq!(rt;
        said(alloc, LogFault::Broken(name, MAGIC))?.as_str(),
        broken
    );
    let gap = "record 2 of the log does not exist, and a later one does";
    assert_eq!(rt; said(alloc, LogFault::Gap(2))?.as_str(), gap);
    Ok(())
}

#[test]
fn segments(rt: HostRuntime) -> Result<(), Fail> {
    let alloc = rt.alloc();
    for (part, want) in [
        (
            SegFile::Docs,
            "the file of documents of a segment says 2 where 3 is wanted",
        ),
        (
            SegFile::Post,
            "the file of postings of a segment says 2 where 3 is wanted",
        ),
        (
            SegFile::Info,
            "the info file of a segment says 2 where 3 is wanted",
        ),
        (
            SegFile::Live,
            "the file of live rows of a segment says 2 where 3 is wanted",
        ),
    ] {
        let fault = SegFault::Disagrees {
            part,
            want: 3,
            found: 2,
        };
        assert_eq!(rt; said(alloc, fault)?.as_str(), want);
    }
    let fault = SegFault::File(SegFile::Info, MAGIC);
    let want =
        "the info file of a segment cannot be read: the file does not begin with the magic number 3fd76c17";
    assert_eq!(rt; said(alloc, LoadFault::Refused(fault))?.as_str(), want);
    Ok(())
}

fn meta(alloc: Global, checksum: u64) -> Result<FileMetaData, AllocError> {
    Ok(FileMetaData {
        header: NameBytes::new(alloc, b"")?,
        footer: [0; 16],
        length: 20,
        checksum,
    })
}

#[test]
fn copies(rt: HostRuntime) -> Result<(), Fail> {
    let alloc = rt.alloc();
    let name = commit_name(1);
    let damaged = JobFault::Damaged {
        name,
        want: 1,
        found: 255,
    };
    let want =
        "the file segments_1 was damaged on its way: its checksum is 00000001, 000000ff arrived";
    assert_eq!(rt; said(alloc, damaged)?.as_str(), want);
    let clash = JobFault::NameClash {
        name,
        ours: meta(alloc, 1)?,
        theirs: meta(alloc, 2)?,
    };
    let want =
        "another file segments_1 is here: its checksum is 00000001, that of the other node 00000002";
    assert_eq!(rt; said(alloc, clash)?.as_str(), want);
    assert_eq!(rt;
        said(alloc, JobFault::DirFailed)?.as_str(),
        "the disk failed"
    );
    let link = "the link to the other node failed";
    assert_eq!(rt; said(alloc, LinkFault::Failed)?.as_str(), link);
    assert_eq!(rt; said(alloc, JobFault::LinkFailed)?.as_str(), link);
    let frame = MetaFault::Frame(FrameFault::TooOld(1));
    let old = "the file has format version 1, older than any that is read";
    assert_eq!(rt; said(alloc, frame)?.as_str(), old);
    Ok(())
}

#[test]
fn primaries(rt: HostRuntime) -> Result<(), Fail> {
    let alloc = rt.alloc();
    assert_eq!(rt;
        said(alloc, PrimaryFault::Failed)?.as_str(),
        "the disk failed"
    );
    for (fault, want) in [
        (
            PublishFault::NamesSpent,
            "all 1679616 segments of the generation are used: promote a node to begin the next",
        ),
        (
            PublishFault::TooManySegments,
            "there are 256 segments, as many as there may be: merge some",
        ),
    ] {
        assert_eq!(rt; said(alloc, fault)?.as_str(), want);
    }
    for (fault, want) in [
        (
            PromoteFault::GenNotNewer(Gen(3)),
            "the generation must be above the last one, 3",
        ),
        (
            PromoteFault::ForceHigh,
            "the forced version must be below 4611686018427387904",
        ),
    ] {
        assert_eq!(rt; said(alloc, fault)?.as_str(), want);
    }
    Ok(())
}

#[test]
fn checks(rt: HostRuntime) -> Result<(), Fail> {
    let alloc = rt.alloc();
    let name = commit_name(1);
    let none = "segments_1: the last commit needs this file, which does not exist";
    assert_eq!(rt; said(alloc, CheckFault::NoFile(name))?.as_str(), none);
    let file = "segments_1: the file does not begin with the magic number 3fd76c17";
    assert_eq!(rt; said(alloc, CheckFault::File(name, MAGIC))?.as_str(), file);
    let disagrees = CheckFault::Disagrees {
        name,
        want: 3,
        found: 2,
    };
    let says = "segments_1: it says 2 where the last commit wants 3";
    assert_eq!(rt; said(alloc, disagrees)?.as_str(), says);
    let postings = "segments_1: the postings are not those of the documents of its segment";
    assert_eq!(rt; said(alloc, CheckFault::Postings(name))?.as_str(), postings);
    let rows = CheckFault::TwoRows(name, Key::new(alloc, b"k1")?);
    let twice = "segments_1: the key k1 has two live documents";
    assert_eq!(rt; said(alloc, rows)?.as_str(), twice);
    let others = "the live documents in order of key are not the wanted ones, first at place 4";
    assert_eq!(rt; said(alloc, CheckFault::OtherDocs(4))?.as_str(), others);
    let image = "the input is no image of a directory";
    assert_eq!(rt; said(alloc, ImageFault::Body)?.as_str(), image);
    Ok(())
}

#[test]
fn streams(rt: HostRuntime) -> Result<(), Fail> {
    let alloc = rt.alloc();
    for (fault, want) in [
        (
            WireFault::Length(65537),
            "a frame has the length 65537, where 1 to 65536 is wanted",
        ),
        (
            WireFault::Kind(6),
            "a frame has the kind 6, where 1 to 5 is wanted",
        ),
        (
            WireFault::Body,
            "the body of a frame is no message of its kind",
        ),
    ] {
        assert_eq!(rt; said(alloc, fault)?.as_str(), want);
    }
    let order = "the messages are no state of a point: the one at place 2 is another or missing";
    assert_eq!(rt; said(alloc, StateFault::Order(2))?.as_str(), order);
    for (end, want) in [
        (FramesEnd::Fault, "the stream cannot be read"),
        (FramesEnd::TooLarge, "a stream has at most 16777216 bytes"),
        (FramesEnd::BadStream(4), "bad stream, cause 4"),
    ] {
        assert_eq!(rt; said(alloc, end)?.as_str(), want);
    }
    Ok(())
}
