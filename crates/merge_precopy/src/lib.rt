//! The files of merges that a replica was given before their cut-over: a table with an invariant of its own, which knows no replica, and
//! so is a crate of its own.
#![tactic(auto)]

mod pending;
mod table;

pub use pending::Precopies;
