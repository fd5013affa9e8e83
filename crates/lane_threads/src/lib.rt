//! Lanes as threads over one lock: how they serve a script, their seats, and the phases in which all run at once.
#![tactic(auto)]

pub mod crossing;
mod halt;
mod hearing;
mod lane;
pub mod laws;
mod part;
mod phase;
mod run;
mod script;
mod seating;
mod section;
mod turn;

pub use halt::Halt;
pub use lane::{Lane, RunsLines};
pub use run::{LaneRun, Setup};
pub use script::run_script;
pub use section::{enter, leave};
