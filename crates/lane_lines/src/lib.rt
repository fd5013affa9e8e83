//! The lines of lanes in sections of the lock: writes, searches, commits, crashes, promotions and planned faults.
#![tactic(auto)]

mod answering;
mod committing;
mod evaluation;
mod lives;
mod planning;
mod publishing;
mod searching;
mod tickets;
mod writing;

pub use committing::commit;
pub use lives::{crash, promote, reopen};
pub use planning::fault;
pub use publishing::publish;
pub use searching::{ask, search};
pub use tickets::{close, list_files, open};
pub use writing::write;
