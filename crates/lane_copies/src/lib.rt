//! The copies and merges of lanes, with their work between the sections: the lines that workers help, and all that a worker does.
#![tactic(auto)]

mod calls;
mod carrying;
mod copying;
mod draining;
mod jobs;
mod merging;
mod precopying;
mod settling;
mod tasks;

pub use copying::copy;
pub use draining::drain;
pub use merging::merge;
pub use settling::settle;
pub use tasks::do_posted;
