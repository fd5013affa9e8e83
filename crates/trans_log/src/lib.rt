//! The log of accepted operations: one file a record, written so that no acknowledged record is lost. It knows a directory and operations,
//! and no index, so it is a crate of its own.
#![tactic(auto)]

mod log;
mod names;
mod opening;
mod parts;
mod record;

pub use log::{LogFault, TransLog};
pub use opening::LogRefused;
pub use record::LogOp;
