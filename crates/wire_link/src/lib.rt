//! A link on which every file goes through the frames that a peer would read, and the frames of a whole copy. It stands
//! alone, since whoever carries files takes any link; the lanes take this one.
#![tactic(auto)]

mod frames;
mod link;
mod reading;

pub use frames::frames_of;
pub use link::WireLink;
