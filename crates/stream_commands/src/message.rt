//! What a message says of a stream.

use std::alloc::Global;
use thiserror::Error;
use wire_frames::{Decoder, WireFault};

/// Why a stream is bad.
#[derive(Clone, Copy, Debug, Error)]
pub enum StreamFault {
    /// Its first faulty frame has this fault.
    #[error(transparent)]
    Frame(WireFault),
    /// It has no faulty frame, and ends within one.
    #[error("the stream ends within a frame")]
    Cut,
}

/// Why a bad stream is bad.
pub fn stream_fault(alloc: Global, stream: &[u8]) -> StreamFault {
    let Ok(mut decoder) = Decoder::new(alloc) else {
        return StreamFault::Frame(WireFault::Memory);
    };
    match decoder.feed(alloc, stream) {
        Ok(_) => StreamFault::Cut,
        Err(fault) => StreamFault::Frame(fault),
    }
}
