//! The text of a query: its words, its tokens, and the query that it spells.
#![tactic(auto)]

mod build;
mod fault;
mod parse;
mod syntax;
mod token;

pub use documents::words;
pub use fault::QueryFault;
pub use parse::{one_tree, parse_query};
