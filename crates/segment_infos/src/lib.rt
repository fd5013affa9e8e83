//! What a segment's info file says of it, the infos of a point, the files that they name, and the numbers of commits.
#![tactic(auto)]

mod commits;
mod encoding;
mod files;
mod info;
mod infos;
pub mod laws;
mod reading;

pub use body_forms::ReadFault;
pub use commits::{last_commit, next_commit};
pub use encoding::encode;
pub use file_names::{FileName, Gen, List, NameBytes, NoMemory, Share, Version};
pub use files::files_of;
pub use info::{SegInfo, encode_info, read_info};
pub use infos::{Infos, SegRecord};
pub use reading::decode;
