//! When a history serves a script: what each line asks for and may be answered, decided, and the laws of histories that
//! serve one. The judge of reports asks for both.
#![tactic(auto)]

mod commands;
mod finish_laws;
mod plain_laws;
mod printable;
mod refusals;
mod replay;
mod replay_laws;
mod report_laws;

pub use commands::{begins, follows};
pub use refusals::{cut_has_put, may_be_refused, refusal};
pub use replay::begins_with_replay;
