//! The form of file bodies: how values are spelled as bytes, and how the front of bytes is read as
//! a value. A format is both, tied by two laws; formats are put together from smaller ones. A file is
//! a body, framed: what reading one is to answer follows from its format alone.
#![tactic(auto)]

mod item_table;
mod numbers;
mod read_fault;
mod strings;
mod table_parts;
mod vint;

pub use codec_frame::{
    FileFault, FrameFault, Framed, Want, check, write_footer, write_index_header,
};
pub use item_table::{is_item_table, item_at, item_count};
pub use numbers::{
    difference_of, positive_of, push_difference, push_u32, push_u64, skip_ascending, u32_of,
    u64_of, vint_of,
};
pub use read_fault::ReadFault;
pub use strings::{push_string, string_of};
pub use table_parts::{push_end, push_table};
pub use vint::{VIntFault, push_vint, read_vint, vint_len};
