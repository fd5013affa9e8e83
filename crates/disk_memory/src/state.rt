//! The states of a name, the outcomes of a crash, and how a number picks among them.

ghost use Rattle.std.specs.Prelude.{◌≡◌, ◌<◌, ◌^◌, [], true, false, IfOk, if◌then◌else◌, is_some};
ghost use Rattle.disk_memory.specs.Held.{content_of, outcome_of, is_same};
ghost use Rattle.disk_memory.specs.Crash.{place_picked, length_left, content_left, started, drawn_below, next_number};

use bytes::Bytes;
use disk_model::NoMemory;

/// What reads now under a name: nothing, bytes that are not synced, or synced bytes.
#[derive(Drop)]
pub enum State {
    Absent,
    Loose(Bytes),
    Synced(Bytes),
}

/// What a crash may leave under a name: nothing, these bytes, or any bytes, of which those written first are kept.
#[derive(Drop)]
pub enum Outcome {
    Gone,
    Exactly(Bytes),
    Any(Bytes),
}

impl State {
    pub fn into_outcome(self) -> Outcome
        ensures { result ≡ outcome_of self }
    {
        match self {
            State::Absent => Outcome::Gone,
            State::Loose(bytes) => Outcome::Any(bytes),
            State::Synced(bytes) => Outcome::Exactly(bytes),
        }
    }

    pub fn is_absent(&self) -> bool
        ensures { is_some (content_of self.now) ≡ (if result then false else true) }
    {
        matches!(self, State::Absent)
    }

    /// The same state, which shares the bytes.
    pub fn share(&self) -> Result<State, NoMemory>
        ensures { IfOk result (λ state. state ≡ self.now) }
    {
        match self {
            State::Absent => Ok(State::Absent),
            State::Loose(bytes) => Ok(State::Loose(bytes.clone()?)),
            State::Synced(bytes) => Ok(State::Synced(bytes.clone()?)),
        }
    }
}

impl Outcome {
    pub fn is_same(&self, other: &Outcome) -> bool
        ensures { result ≡ is_same self.now other.now }
    {
        match (self, other) {
            (Outcome::Gone, Outcome::Gone) => true,
            (Outcome::Exactly(x), Outcome::Exactly(y)) => x.as_slice() == y.as_slice(),
            (Outcome::Any(_), Outcome::Any(_)) => true,
            _ => false,
        }
    }

    pub fn into_state(self, pick: u64, number: u64) -> State
        ensures { record { state = result; past = [] } ≡ started (content_left pick number self) }
    {
        match self {
            Outcome::Gone => State::Absent,
            Outcome::Exactly(bytes) => State::Synced(bytes),
            Outcome::Any(mut bytes) => {
                let len = length_left(pick, number, bytes.len() as u64);
                bytes.truncate(len as usize);
                State::Synced(bytes)
            }
        }
    }
}

/// The next of the numbers that a pick runs through.
pub fn next_number(number: u64) -> u64
    ensures { result ≡ next_number number }
{
    number
        .wrapping_mul(6364136223846793005)
        .wrapping_add(1442695040888963407)
}

fn drawn_below(bound: u64, number: u64) -> u64
    requires { 0 < bound }
    ensures { result ≡ drawn_below bound number }
{
    (number >> 33) % bound
}

pub fn place_picked(pick: u64, number: u64, count: u64) -> u64
    requires { 0 < count }
    ensures { result ≡ place_picked pick number count }
{
    match pick {
        0 => count - 1,
        1 => 0, // the oldest
        _ => drawn_below(count, number),
    }
}

fn length_left(pick: u64, number: u64, len: u64) -> u64
    requires { len < 2 ^ 63 }
    ensures { result ≡ length_left pick number len }
{
    match pick {
        0 => len,
        1 => 0, // no bytes
        _ => drawn_below(len + 1, number),
    }
}
