//! Tests of a primary and of replicas over a directory in memory. They are a crate of their own, so that none that they test is proved
//! twice.
#![tactic(auto)]

#[cfg(test)]
mod bench;
#[cfg(test)]
mod calls;
#[cfg(test)]
mod copies;
#[cfg(test)]
mod files;
#[cfg(test)]
mod finishing;
#[cfg(test)]
mod jobs;
#[cfg(test)]
mod openings;
mod seen;
#[cfg(test)]
mod tables;
#[cfg(test)]
mod takeovers;
