//! The faults that are planned for a disk, and how many were met.

ghost use Rattle.std.specs.Prelude.{◌≡◌};
ghost use Rattle.disk_model.specs.Faults.{is_met, counted, one_if, next_stop, faults_met};

use std::marker::Model;

/// The faults that are planned for a disk: the call that fails once, and the first of those that fail from then on,
/// counted from 1, 0 for none; and how many faults each kind has met.
#[derive(Drop)]
pub struct Planned {
    once: u64,
    stop: u64,
    met_once: u64,
    met_stop: u64,
}

impl Model for Planned {
    ghost use Rattle.std.specs.Prelude.{◌+◌, ◌^◌, ◌<◌};
    ghost use Rattle.disk_model.specs.Faults.{Plans};

    ghost Value = { Plans };

    ghost view = { λ p. record { once = p.once; stop = p.stop; met_once = p.met_once; met_stop = p.met_stop } };

    ghost invariant = { λ p. p.met_once + p.met_stop < 2 ^ 64 };
}

fn one_if(met: bool) -> u64
    ensures { result ≡ one_if met }
{
    if met { 1 } else { 0 }
}

fn next_stop(stop: u64) -> u64
    ensures { result ≡ next_stop stop }
{
    if stop == 1 { 1 } else { stop.saturating_sub(1) }
}

impl Planned {
    /// Nothing is planned, and no fault was met.
    pub fn new() -> Planned
        ensures { result ≡ record { once = 0; stop = 0; met_once = 0; met_stop = 0 } }
    {
        Planned {
            once: 0,
            stop: 0,
            met_once: 0,
            met_stop: 0,
        }
    }

    /// Whether the next call that is counted fails.
    pub fn is_met(&self) -> bool
        ensures { result ≡ is_met self.now }
    {
        (self.once == 1 || self.stop == 1) && self.faults() < u64::MAX - 1
    }

    /// Counts a call.
    pub fn count(&mut self)
        ensures { self.new ≡ counted self.old }
    {
        let met = self.is_met();
        self.met_once += one_if(met && self.once == 1);
        self.met_stop += one_if(met && self.stop == 1);
        self.once = self.once.saturating_sub(1);
        self.stop = next_stop(self.stop);
    }

    /// Plans that the k-th call fails once.
    pub fn set_once(&mut self, k: u64)
        ensures { self.new ≡ record self.old { once = k } }
    {
        self.once = k;
    }

    /// Plans that the k-th call and each later one fail.
    pub fn set_stop(&mut self, k: u64)
        ensures { self.new ≡ record self.old { stop = k } }
    {
        self.stop = k;
    }

    /// How many faults were met.
    pub fn faults(&self) -> u64
        ensures { result ≡ faults_met self.now }
    {
        self.met_once + self.met_stop
    }

    /// How many faults were met by each kind of plan.
    pub fn kinds(&self) -> (u64, u64)
        ensures { result ≡ (self.now.met_once, self.now.met_stop) }
    {
        (self.met_once, self.met_stop)
    }
}
