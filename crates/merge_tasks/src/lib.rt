//! A book with the merges in flight, the faults planned for files, and the tasks of merges: those that are posted, and how far each merge has come.
#![tactic(auto)]

mod board;
mod drains;
mod fates;
mod ledger;
mod merges;
mod rows;
mod tasks;

pub use board::Tasks;
pub use fates::FilePlans;
pub use ledger::Ledger;
pub use tasks::{OpenMerge, Posted, Sent, Spread, Task, TaskKind, step_of};
