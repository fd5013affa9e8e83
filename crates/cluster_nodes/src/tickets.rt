//! Tickets of nodes: opened, closed, and what a search reads under one.

ghost use Rattle.std.specs.Prelude.{◌≡◌, None, Some, true, is_some, IsSome, IfSome, IfOk, OnOk};
ghost use Rattle.searcher_switch.specs.Tickets.{ticket_at, tickets_without};
ghost use Rattle.searcher_switch.specs.Searching.{IsLeaseOf};
ghost use Rattle.cluster_nodes.specs.Held.{held_number};
ghost use Rattle.cluster_nodes.specs.Places.{place_of, IsSlot, dir_of, searchers_of, tickets_of};
ghost use Rattle.cluster_nodes.specs.KeptFiles.{KeepsNodeFiles};
ghost use Rattle.cluster_nodes.specs.Changes.{KeepsNode, OpensTicket, HoldsMore, HoldsLess, HoldsTicket, IsLeaseUnder};

use crate::held::{HeldKey, HeldTicket, hold, let_go, number_held};
use crate::nodes::{Node, NodePlace};
use disk_model::Dir;
use index_primary::{Lease, Ticket};
use nrt_base::{NoMemory, NodeNo};
use seg_reader::Segment;
use std::alloc::Global;

// Opens a ticket at a running node, and answers its number.
fn acquire<D: Dir + Drop>(alloc: Global, node: &mut Node<D>) -> Result<u64, NoMemory>
    requires { IsSome (searchers_of node.old) }
    ensures keeps { OnOk result (KeepsNode D.cells node.old node.new) }
    ensures files { OnOk result (KeepsNodeFiles D.cells node.old node.new) }
    ensures dir { OnOk result (dir_of node.new ≡ dir_of node.old) }
    ensures opens { IfOk result (λ number. OpensTicket number node.old node.new) }
{
    match node {
        Node::Primary(primary) => {
            let Ticket { number } = primary.acquire(alloc)?;
            Ok(number)
        }
        Node::Replica(replica) => {
            let Ticket { number } = replica.acquire(alloc)?;
            Ok(number)
        }
        Node::Down(_) => unreachable!(),
    }
}

// Closes a ticket of a running node.
fn release<D: Dir + Drop>(node: &mut Node<D>, number: u64)
    requires { is_some (ticket_at number (tickets_of node.old)) ≡ true }
    ensures keeps { KeepsNode D.cells node.old node.new }
    ensures files { KeepsNodeFiles D.cells node.old node.new }
    ensures closed { tickets_of node.new ≡ tickets_without number (tickets_of node.old) }
{
    match node {
        Node::Primary(primary) => primary.release(Ticket { number }),
        Node::Replica(replica) => replica.release(Ticket { number }),
        Node::Down(_) => unreachable!(),
    }
}

/// Holds a ticket of a running node for this.
pub fn hold_ticket<D: Dir + Drop>(
    alloc: Global,
    place: &mut NodePlace<D>,
    key: HeldKey,
) -> Result<(), NoMemory>
    requires { IsSome (searchers_of place.old.node) }
    ensures keeps { OnOk result (KeepsNode D.cells place.old.node place.new.node) }
    ensures files { OnOk result (KeepsNodeFiles D.cells place.old.node place.new.node) }
    ensures dir { OnOk result (dir_of place.new.node ≡ dir_of place.old.node) }
    ensures holds { OnOk result (HoldsMore key place.old place.new) }
{
    let number = acquire(alloc, &mut place.node)?;
    hold(&mut place.held, key, number)?;
    Ok(())
}

// What a search reads under an open ticket of a running node.
fn lease_of<D: Dir + Drop>(
    alloc: Global,
    node: &Node<D>,
    number: u64,
) -> Result<Lease<Segment>, NoMemory>
    requires { is_some (ticket_at number (tickets_of node.now)) ≡ true }
    ensures { IfOk result (λ lease. IfSome (ticket_at number (tickets_of node.now)) (IsLeaseOf lease)) }
{
    let ticket = Ticket { number };
    match node {
        Node::Primary(primary) => primary.lease(alloc, &ticket),
        Node::Replica(replica) => replica.lease(alloc, &ticket),
        Node::Down(_) => unreachable!(),
    }
}

/// Gives back the ticket that is held for this, if one is.
pub fn give_ticket_back<D: Dir + Drop>(place: &mut NodePlace<D>, key: HeldKey)
    requires { IfSome (held_number place.old.held.items key)
        (λ number. is_some (ticket_at number (tickets_of place.old.node)) ≡ true) }
    ensures keeps { KeepsNode D.cells place.old.node place.new.node }
    ensures files { KeepsNodeFiles D.cells place.old.node place.new.node }
    ensures less { HoldsLess key place.old place.new }
{
    let number = number_held(place.held.as_slice(), key);
    let_go(&mut place.held, key);
    if let Some(number) = number {
        release(&mut place.node, number);
    }
}

// What a search reads under the ticket that a node holds for this.
fn lease_under<D: Dir + Drop>(
    alloc: Global,
    place: &NodePlace<D>,
    key: HeldKey,
) -> Result<Lease<Segment>, NoMemory>
    requires { HoldsTicket (Some place.now) key }
    ensures { IfOk result (IsLeaseUnder (Some place.now) key) }
{
    match number_held(place.held.as_slice(), key) {
        None => unreachable!(),
        Some(number) => lease_of(alloc, &place.node, number),
    }
}

/// What a search reads under the ticket that the node in this place holds for this.
pub fn lease_in<D: Dir + Drop>(
    alloc: Global,
    places: &Vec<Option<NodePlace<D>>>,
    n: NodeNo,
    key: HeldKey,
) -> Result<Lease<Segment>, NoMemory>
    requires slot { IsSlot places.now.items n.0 }
    requires held { HoldsTicket (place_of places.now.items n.0) key }
    ensures { IfOk result (IsLeaseUnder (place_of places.now.items n.0) key) }
{
    match &places[n.0 as usize - 1] {
        None => unreachable!(),
        Some(place) => lease_under(alloc, place, key),
    }
}
