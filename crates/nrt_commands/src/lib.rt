//! The whole program but its words and its standard streams: the commands that run a script, and `run_nrt`, which does what the words ask
//! for. It is a library of its own, since the tests of a program prove the program once more.
#![tactic(auto)]

mod gate;
mod loading;
mod nodes;
mod showing;
mod top;

pub use cluster_run::{Cluster, Gate, Place, let_go};
pub use gate::OpenGate;
pub use nodes::NodeText;
pub use top::run_nrt;
