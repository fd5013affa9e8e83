//! What a search answers, found over the postings of segments. It is the scan of the documents of their live rows. Only lanes search, so a
//! change here proves no node again.
#![tactic(auto)]

mod best;
mod building;
mod cursor;
mod phrase;
mod search;
mod window;
mod word;

pub use search::answer;
