//! What a history shows, kept in tables that one more entry steps: numbers, nodes, lines, tickets, planned faults, jobs.
#![tactic(auto)]

pub mod jobs;
pub mod lines;
pub mod numbers;
pub mod plans;
pub mod rows;
pub mod states;
pub mod tickets;
pub mod work;

pub use history_facts::same_at;
pub use jobs::{Job, JobRow, JobStep, JobTable};
pub use lines::{BegunLine, Lines, Start};
pub use numbers::Numbers;
pub use plans::Plans;
pub use rows::{NodeRow, first_rows, step_rows};
pub use states::NodeState;
pub use tickets::{Opening, Tickets};
pub use work::Work;
