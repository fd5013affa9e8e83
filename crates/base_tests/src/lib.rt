//! Tests of values, of what a crash leaves on a disk, and of queries, which need nothing private. They are a crate of their own, so that
//! none that they test is proved twice.
#![tactic(auto)]

#[cfg(test)]
mod commits;
#[cfg(test)]
mod frames;
#[cfg(test)]
mod logs;
#[cfg(test)]
mod names;
#[cfg(test)]
mod parsing;
#[cfg(test)]
mod picks;
#[cfg(test)]
mod postings;
#[cfg(test)]
mod ranges;
#[cfg(test)]
mod scans;
#[cfg(test)]
mod sentences;
#[cfg(test)]
mod site;
