//! The operations that change documents.

use nrt_base::{Doc, Key, NoMemory, Share, Word};
use std::alloc::Global;

/// An operation on the documents.
#[derive(Debug, Drop)]
pub enum Op {
    /// The key gets this document in place of the one that it had.
    Put(Doc),
    /// The key has no document any more.
    Delete(Key),
    /// Every document that has the word in its text is taken away.
    Drop(Word),
}

impl Share for Op {
    fn share(&self, alloc: Global) -> Result<Self, NoMemory> {
        match self {
            Op::Put(doc) => Ok(Op::Put(doc.share(alloc)?)),
            Op::Delete(key) => Ok(Op::Delete(key.share(alloc)?)),
            Op::Drop(word) => Ok(Op::Drop(word.share(alloc)?)),
        }
    }
}
