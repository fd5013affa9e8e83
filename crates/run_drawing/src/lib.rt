//! A drawing of a run: the versions of its nodes over time, tickets and the lines of the script, as SVG. For its caller it is one function;
//! with the table of `run_picture` it would pass 100 functions.
#![tactic(auto)]

mod bands;
mod bars;
mod pages;
mod scene;
mod shapes;
mod span;
mod style;
mod whole;

pub use whole::drawing;
