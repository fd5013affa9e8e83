//! A link over another one.

ghost use Rattle.std.specs.Prelude.{◌≡◌, ◌+◌, ◌<◌, ◌^◌, length, true, IfOk};

use crate::reading::brought;
use bytes::Bytes;
use file_names::FileName;
use link_model::{Link, LinkFault};
use nrt_base::{NoMemory, Share};
use std::alloc::{AllocError, Global};

/// How many bytes a chunk has at most.
const CHUNK: usize = 32_768;

// Whether the places of so many bytes from a place on are numbers that a frame has.
fn has_places(at: usize, len: usize) -> bool
    ensures { result ≡ true → at + len < 2 ^ 64 }
{
    at.checked_add(len).is_some()
}

// The bytes of a file from a place on, chunk by chunk as they come out of their frames, joined.
fn joined(alloc: Global, name: FileName, at: usize, bytes: &Bytes) -> Result<Bytes, NoMemory>
    requires { at + length bytes.now < 2 ^ 64 }
    ensures { IfOk result (λ read. read ≡ bytes.now) }
{
    let mut file = Vec::with_capacity(alloc, bytes.len())?;
    let mut done = 0;
    while done < bytes.len() {
        let end = done + CHUNK.min(bytes.len() - done);
        let part = bytes.slice(done..end)?;
        let read = brought(alloc, name, (at + done) as u64, &part)?;
        file.extend_from_slice(read.as_slice())?;
        done = end;
    }
    Ok(Bytes::from_vec(file)?)
}

// The bytes of a file from a place on, as they come out of the frames that they are sent in. Those of one chunk are shared.
fn sent(alloc: Global, name: FileName, at: usize, bytes: &Bytes) -> Result<Bytes, NoMemory>
    ensures { IfOk result (λ read. read ≡ bytes.now) }
{
    // No file has as many bytes.
    if !has_places(at, bytes.len()) {
        return Err(AllocError);
    }
    if bytes.is_empty() {
        return bytes.share(alloc);
    }
    if bytes.len() <= CHUNK {
        return brought(alloc, name, at as u64, bytes);
    }
    joined(alloc, name, at, bytes)
}

/// A link that hands on, by way of the frames that a peer would read, what the link that it wraps hands out. It is else that link.
#[derive(Drop)]
pub struct WireLink<L: Link> {
    alloc: Global,
    link: L,
    name: FileName,
}

impl<L: Link> WireLink<L> {
    /// The link over this one, for the file of this name.
    pub fn new(alloc: Global, link: L, name: FileName) -> Self
        ensures { result.link ≡ link }
    {
        WireLink { alloc, link, name }
    }
}

impl<L: Link> Link for WireLink<L> {
    ghost begun = { λ l. L.begun l.link };

    ghost altered = { λ l. L.altered l.link };

    ghost faults = { λ l. L.faults l.link };

    ghost damages = { λ l. L.damages l.link };

    ghost fate = { λ l. L.fate l.link };

    fn begin(&mut self, file: &Bytes) -> Result<(), LinkFault> {
        self.link.begin(file)
    }

    fn fetch(&mut self, at: usize, len: usize) -> Result<Bytes, LinkFault> {
        let before = self.link.damages();
        let bytes = self.link.fetch(at, len)?;
        match sent(self.alloc, self.name, at, &bytes) {
            Ok(read) => Ok(read),
            Err(AllocError) => {
                // A damage that was counted is handed out.
                if self.link.damages() == before {
                    Err(LinkFault::Memory)
                } else {
                    Ok(bytes)
                }
            }
        }
    }

    fn faults(&self) -> u64 {
        self.link.faults()
    }

    fn damages(&self) -> u64 {
        self.link.damages()
    }
}
