//! The documents of a cluster: they are put and published, and searched; with tickets, and the files of a node. Each kind
//! of path is a crate of its own, so that a change of one proves no other again.
#![tactic(auto)]

mod line_lists;
mod lists;
mod node_documents;
mod publishes;
mod reads;
mod searches;
mod tickets;
mod writes;

pub use line_lists::files;
pub use node_documents::documents_of;
pub use publishes::{accept, accept_again, publish_end, publish_start};
pub use searches::{answer_end, ask_start, search_start};
pub use tickets::{ticket_close, ticket_open};
