//! The points of a legal history, and the documents of those that searches ask for. The judge of histories computes them beside its verdict;
//! its crate would pass 1,500 lines with them.
#![tactic(auto)]

mod asked;
mod best;
mod candidates;
mod counting;
mod kept;
mod places;
mod published;
mod reached;
mod right;
mod searched;

pub use asked::AskedPoint;
pub use counting::operations;
pub use published::points;
pub use right::{RightAnswers, is_right};
