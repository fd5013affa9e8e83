//! The small types that every crate stands on.
#![tactic(auto)]

mod boxed;
mod doc;
mod key;
mod list;
mod memory;
mod numbers;
mod raw;
mod share;
mod text;
mod word;

pub use boxed::Boxed;
pub use doc::Doc;
pub use key::Key;
pub use list::List;
pub use memory::NoMemory;
pub use numbers::{At, Gen, LaneNo, LineNo, NodeNo, SegNo, TicketNo, Version};
pub use raw::NameBytes;
pub use share::Share;
pub use text::Text;
pub use word::Word;
