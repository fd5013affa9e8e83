//! The tickets of a node that are held, and for what.

ghost use Rattle.std.specs.Prelude.{◌≡◌, None, Some, OnOk, not, if◌then◌else◌};
ghost use Rattle.std.specs.List.{filter};
ghost use Rattle.cluster_nodes.specs.Held.{same_key, held_number};

use history_tables::same_at;
use nrt_base::{At, LaneNo, NoMemory, TicketNo};

/// For what a ticket of a node is held: a ticket of a lane, or the search of a line.
#[derive(Clone, Copy, Debug, PartialEq, Eq)]
pub enum HeldKey {
    Ticket { lane: LaneNo, t: TicketNo },
    Search { at: At },
}

/// A ticket of a node that is held, by its number there.
#[derive(Clone, Copy, Debug, PartialEq, Eq)]
pub struct HeldTicket {
    pub key: HeldKey,
    pub number: u64,
}

// Whether the two are one.
fn same_key(a: HeldKey, b: HeldKey) -> bool
    ensures { result ≡ same_key a b }
{
    match (a, b) {
        (HeldKey::Ticket { lane, t }, HeldKey::Ticket { lane: l, t: u }) => lane.0 == l.0
            && t.0 == u.0,
        (HeldKey::Search { at }, HeldKey::Search { at: b }) => same_at(at, b),
        (HeldKey::Ticket { .. }, HeldKey::Search { .. }) => false,
        (HeldKey::Search { .. }, HeldKey::Ticket { .. }) => false,
    }
}

/// The number of the ticket that is held for this. The newest tickets stand last, and are looked at first.
pub fn number_held(held: &[HeldTicket], key: HeldKey) -> Option<u64>
    ensures { result ≡ held_number held.now key }
{
    let mut left = held.len();
    while left > 0 {
        let row = &held[left - 1];
        if same_key(row.key, key) {
            return Some(row.number);
        }
        left -= 1;
    }
    None
}

/// Holds a ticket for this.
pub fn hold(held: &mut Vec<HeldTicket>, key: HeldKey, number: u64) -> Result<(), NoMemory>
    ensures { OnOk result ((k : _) → held_number held.new.items k
        ≡ (if same_key key k then Some number else held_number held.old.items k)) }
{
    held.push(HeldTicket { key, number })?;
    Ok(())
}

/// Holds no ticket for this any more.
pub fn let_go(held: &mut Vec<HeldTicket>, key: HeldKey)
    ensures { (k : _) → held_number held.new.items k
        ≡ (if same_key key k then None else held_number held.old.items k) }
{
    without(held, key);
}

fn without(held: &mut Vec<HeldTicket>, key: HeldKey)
    ensures { held.new.items ≡ filter (λ h. not (same_key h.key key)) held.old.items }
{
    held.retain(|row| !same_key(row.key, key));
}
