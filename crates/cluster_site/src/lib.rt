//! A cluster with the log of the operations that it accepts, where it has one, by one call for each step of a line; and
//! what the lines of all lanes share: the section of the lock that each runs in, the gate that a line passes before it
//! works outside the lock, and how it waits for another lane's.
#![tactic(auto)]

mod accepting;
mod asks;
mod copying;
mod gate;
mod lanes;
mod lasting;
mod merging;
mod opening;
mod planning;
mod promoting;
mod publishing;
mod replaying;
mod section;
mod site;
mod waiting;

pub use cluster_core::{Cluster, Turn};
pub use gate::{Gate, Place};
pub use lanes::Lanes;
pub use section::enter_site;
pub use site::Site;
pub use waiting::give_way;
