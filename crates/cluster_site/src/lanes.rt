//! What the lines of all lanes share.

use crate::gate::Gate;
use crate::site::Site;
use disk_model::FaultDir;
use hist_lock::HistLock;
use lane_threads::{Halt, Setup};
use std::alloc::Global;
use std::sync::Wait;

/// What the lines of all lanes share.
#[derive(Drop)]
pub struct Lanes<'a, R: Wait, D: FaultDir + Drop, G: Gate> {
    pub rt: &'a R,
    pub alloc: Global,
    /// The site, under its lock.
    pub lock: &'a HistLock<Site<D>>,
    /// How the site was set up.
    pub setup: Setup,
    /// What a line passes before it works outside the lock.
    pub gate: &'a G,
    /// Whether a lane has failed.
    pub halt: &'a Halt,
}
