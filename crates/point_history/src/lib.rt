//! The judge of histories: whether one is legal, and the points of one that is. It is a crate of its own, since only the judge of reports
//! needs it: the cluster keeps to the rules as its contracts say, and judges no history.
#![tactic(auto)]

mod answers;
mod fault_rules;
mod legality;
mod listings;
mod refusals;
mod rules;

pub use documents::{
    Answer, Hit, Op, Query, Texts, apply, change, has_word, listed, matches, scan, words,
};
pub use history_points::{operations, points};
pub use history_rules::{Cause, Entry, Event, FaultKind, FaultPlan, History, Point, Verdict, laws};
pub use legality::legal;
