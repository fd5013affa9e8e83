//! Tests of what the faults of disks, segments, nodes, checks and streams say. They are a crate of their own, so that none that they test
//! is proved twice.
#![tactic(auto)]

#[cfg(test)]
mod advice;
#[cfg(test)]
mod faults;
#[cfg(test)]
mod usage;
