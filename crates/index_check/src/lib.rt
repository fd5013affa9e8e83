//! A check of a directory that somebody else made, of its image, and the command that does it: `nrt check`; and the image
//! of a directory as it reads now. No node needs it.
#![tactic(auto)]

mod calm;
mod check;
mod checking;
mod commit;
mod directory;
mod fault;
mod files;
mod image;
mod line;
mod reading;
mod rows;
mod segment;
mod standing;
mod writing;

pub use check::check_dir;
pub use checking::check_image;
pub use commit::read_commit;
pub use fault::CheckFault;
pub use image::{image_of, read_files};
pub use reading::{ImageFault, read_image};
pub use writing::write_image;
