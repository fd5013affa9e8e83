//! The error of a call that lacks memory.

/// Want of memory.
pub type NoMemory = std::alloc::AllocError;
