//! What the entries of a history show, read off them: nodes, lines, tickets, commits, faults, what is written.
#![tactic(auto)]

mod commits;
mod counting;
mod drawn;
mod faults;
mod generation;
mod lines;
mod nodes;
mod searched;
mod tasks;
mod tickets;
mod written;

pub use commits::{
    has_committed, is_disk_fault, is_passed, is_reopenable, is_stuck, was_searched_since,
};
pub use counting::operation_count;
pub use drawn::{Drawn, is_drawn_file, is_drawn_temporary, note_drawn};
pub use faults::{fails_now, has_file_fault, has_met_fault, is_of_disk, is_planned, same_kind};
pub use generation::Generation;
pub use lines::{
    before_start, commit_in_flight, copy_in_flight, has_just_switched, has_switched,
    highest_switched, is_answered, is_free_for, is_start, last_of_line, node_survives,
    publish_in_flight, same_at, source_survives, start_entry,
};
pub use nodes::{
    accepted_count, crashes, is_at, is_made_in_generation, is_node, is_point, is_replica,
    is_running, newest_version, primary_of,
};
pub use searched::version_of;
pub use tasks::{drained_count, merge_count};
pub use tickets::{has_ticket, is_ticket_at, is_ticket_of, open_ticket};
pub use written::documents_at;
