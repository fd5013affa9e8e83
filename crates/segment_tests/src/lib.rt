//! Tests of the files of a segment, of images of directories, and of messages, by bytes from outside. They are a crate of their own, so
//! that none that they test is proved twice.
#![tactic(auto)]

#[cfg(test)]
mod files;
#[cfg(test)]
mod images;
#[cfg(test)]
mod links;
#[cfg(test)]
mod messages;
#[cfg(test)]
mod readers;
