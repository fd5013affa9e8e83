//! Laws of a node whose disk stops, that crashes and is opened again. They are for readers, so they stand last and nothing waits for their
//! proof.
#![tactic(auto)]

pub mod stops;
