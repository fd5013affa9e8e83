//! The text of scripts: its grammar, and the parser.
#![tactic(auto)]

mod command;
mod counted;
mod fault;
mod grammar_laws;
mod lane_lines;
mod lines;
mod numbers;
mod parse;
mod phases;
mod shapes;
mod words;

pub use fault::{LineFault, ScriptFault};
pub use grammar_laws::{is_read_or_refused, one_refusal, one_script};
pub use lines::next_statement;
pub use numbers::{number_u32, number_u64};
pub use parse::{LONGEST, parse_script};
pub use phases::phase_of;
pub use words::{first_words, is_word};
