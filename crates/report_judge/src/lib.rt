//! The judge of reports: whether one is the text of a legal history that serves its script, and else the first line that is wrong. It is
//! the whole of `nrt judge` but reading and writing.
#![tactic(auto)]

mod cuts;
mod explaining;
mod judgement;
mod judging;
mod lines;
mod reading;
mod replay;
mod serving;
mod source;
mod spots;
mod turns;
mod verdicts;

pub use explaining::explain;
pub use judgement::Judgement;
pub use judging::judge;
pub use source::{ScriptAndReport, cut_source};
pub use verdicts::verdict;
