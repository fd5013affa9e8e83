//! A file that is copied over a link.
ghost use Rattle.std.specs.Prelude.{◌≡◌, ◌≢◌, ◌+◌, ◌-◌, ◌<◌, ◌≤◌, ℕ, List, length, take, drop, Option, Some, None, IsSome, IfOk, IfErr, OnOk, OnErr, IsErrOf};
ghost use Rattle.codec_frame.specs.Bytes.{AreBytes};
ghost use Rattle.codec_frame.specs.Checking.{be64_at, HasFooter};
ghost use Rattle.copy_state.specs.Meta.{IsMetaOf};
ghost use Rattle.link_model.specs.Carrying.{CountsLinkFaults, carried_by};
ghost use Rattle.copy_job.specs.Copying.{HasReceived, IsDifference, IsPartOf, HasCopyCause, TellsDifference, ArrivesByFate};

use crate::fault::JobFault;
use byteorder::{BigEndian, ByteOrder};
use bytes::Bytes;
use codec_frame::crc32;
use copy_state::FileMetaData;
use file_names::FileName;
use link_model::{Link, LinkFault};
use nrt_base::{NoMemory, Share};
use std::alloc::Global;

/// How many bytes are fetched at once.
const CHUNK: usize = 32_768;

/// A file that arrived.
#[derive(Debug, Drop)]
pub struct Part {
    pub name: FileName,
    pub bytes: Bytes,
    pub meta: FileMetaData,
}

// Fetches the next chunk of a file.
fn fetch_next<L: Link>(link: &mut L, bytes: &mut Vec<u8>, size: usize) -> Result<(), LinkFault>
    requires begun { length (L.begun link.old) ≡ size }
    requires more { length bytes.old.items < size }
    ensures received { (before : ℕ)
        → HasReceived (L.altered link.old) (L.begun link.old) before (L.damages link.old) bytes.old.items
        → OnOk result (HasReceived (L.altered link.old) (L.begun link.old)
        before (L.damages link.new) bytes.new.items) }
    ensures longer { OnOk result (length bytes.old.items < length bytes.new.items) }
    ensures begun { L.begun link.new ≡ L.begun link.old }
    ensures altered { L.altered link.new ≡ L.altered link.old }
    ensures faults { CountsLinkFaults (L.faults link.old) (L.faults link.new) result }
    ensures fate { IsSome (L.fate link.old) → IsErrOf result LinkFault.Failed → ⊥ }
    ensures known { IsSome (L.fate link.old) → IsSome (L.fate link.new) }
{
    let at = bytes.len();
    let len = CHUNK.min(size - at);
    let chunk = link.fetch(at, len)?;
    match bytes.extend_from_slice(chunk.as_slice()) {
        Ok(()) => Ok(()),
        Err(_) => Err(LinkFault::Memory),
    }
}

// Fetches a file, chunk by chunk.
fn receive<L: Link>(alloc: Global, link: &mut L, size: usize) -> Result<Vec<u8>, LinkFault>
    requires some { 0 < size }
    requires begun { length (L.begun link.old) ≡ size }
    ensures received { IfOk result (λ bytes. HasReceived (L.altered link.old) (L.begun link.old)
        (L.damages link.old) (L.damages link.new) bytes.items × (length bytes.items ≡ size)) }
    ensures altered { L.altered link.new ≡ L.altered link.old }
    ensures faults { CountsLinkFaults (L.faults link.old) (L.faults link.new) result }
    ensures fate { IsSome (L.fate link.old) → IsErrOf result LinkFault.Failed → ⊥ }
{
    let mut bytes = Vec::with_capacity(alloc, size)?;
    while bytes.len() < size {
        fetch_next(link, &mut bytes, size)?;
    }
    Ok(bytes)
}

// The checksum that stands at the end.
fn field_of(bytes: &[u8]) -> u64
    requires { 8 ≤ length bytes.now }
    ensures { result ≡ be64_at bytes.now (length bytes.now - 8) }
{
    BigEndian::read_u64(&bytes[bytes.len() - 8..])
}

// How many bytes there are.
fn size_of(bytes: &[u8]) -> usize
    ensures size { result ≡ length bytes.now }
    ensures fits { AreBytes bytes.now }
{
    bytes.len()
}

// The CRC-32 of the bytes before their checksum, or else that checksum, where it is not the one that
// is wanted.
fn difference(bytes: &[u8], want: u64) -> Option<u64>
    requires { 8 ≤ length bytes.now }
    ensures difference { IsDifference bytes.now want result }
    ensures fits { AreBytes bytes.now }
{
    let computed = u64::from(crc32(&bytes[..bytes.len() - 8]));
    if computed != want {
        return Some(computed);
    }
    let field = field_of(bytes);
    if field != want {
        return Some(field);
    }
    None
}

// The bytes, to be shared.
fn frozen(bytes: Vec<u8>) -> Result<Bytes, NoMemory>
    ensures { IfOk result (λ shared. shared ≡ bytes.items) }
{
    Ok(Bytes::from_vec(bytes)?)
}

/// Copies a file over a link, chunk by chunk. What arrives is checked against the metadata of the
/// file.
pub fn copy_file<L: Link>(
    alloc: Global,
    link: &mut L,
    source: &Bytes,
    name: &FileName,
    meta: &FileMetaData,
) -> Result<Part, JobFault>
    requires meta { IsMetaOf source.now meta.now }
    requires checksum { HasFooter source.now }

    // What arrives is the file.
    ensures part { IfOk result (IsPartOf name.now source.now meta.now) }

    // Where each answer comes, and that it comes there.
    ensures causes { HasCopyCause name.now meta.now (L.faults link.old) (L.faults link.new)
        (L.damages link.old) (L.damages link.new) result }
    ensures fate { ArrivesByFate (L.fate link.old) result }
    ensures found { TellsDifference (carried_by (L.altered link.new) source.now)
        meta.now.checksum result }
{
    link.begin(source)?;
    let bytes = receive(alloc, link, size_of(source.as_slice()))?;
    match difference(bytes.as_slice(), meta.checksum) {
        Some(found) => Err(JobFault::Damaged {
            name: *name,
            want: meta.checksum,
            found,
        }),
        None => {
            let meta = meta.share(alloc)?;
            let bytes = frozen(bytes)?;
            Ok(Part {
                name: *name,
                bytes,
                meta,
            })
        }
    }
}
