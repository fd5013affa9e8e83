//! Scripts as values, and which histories serve one.
#![tactic(auto)]

mod log_laws;
mod script;

pub use log_laws::log_loses_nothing;
pub use script::{Force, Line, LineCommand, Phase, Script};
