//! Lines of a report, read back into entries. It is the grammar of reports, as `script_text` is that of scripts.
#![tactic(auto)]

mod causes;
mod cuts;
mod events;
mod numbers;
mod plain_events;
mod told;
mod widths;

pub use cuts::{first_line, first_word, next_line};
pub use events::read_event;
pub use numbers::count_word;
pub use widths::entry_is_narrow;
