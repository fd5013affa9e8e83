//! What lanes read of a cluster.

use crate::cluster::Cluster;
use disk_model::FaultDir;
use nrt_base::{LaneNo, NodeNo, TicketNo};

impl<D: FaultDir + Drop> Cluster<D> {
    ghost use Rattle.std.specs.Prelude.{◌≡◌, false, ◌↔◌, IsTrue, IsSomeAnd};
    ghost use Rattle.std.specs.Option.{option_map};
    ghost use Rattle.history_rules.specs.Tickets.{open_ticket};
    ghost use Rattle.history_book.specs.Log.{printed};
    ghost use Rattle.history_book.specs.Jobs.{job_of};

    /// Whether the last job that the lane began has no end.
    pub fn has_job(&self, lane: LaneNo) -> bool
        ensures { IsTrue result ↔ IsSomeAnd (job_of lane.0 self.now.log) (λ row. row.ended ≡ false) }
    {
        match self.state.book().job_of(lane) {
            None => false,
            Some(row) => !row.ended,
        }
    }

    /// The node of a ticket of the lane.
    pub fn ticket_node(&self, lane: LaneNo, t: TicketNo) -> Option<NodeNo>
        ensures { result ≡ option_map (λ ticket. record { 0 = ticket.node })
            (open_ticket lane.0 t.0 (printed self.now.log)) }
    {
        match self.state.book().ticket(lane, t) {
            None => None,
            Some(opening) => Some(opening.node),
        }
    }
}
