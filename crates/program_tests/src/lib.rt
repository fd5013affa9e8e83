//! Tests of the whole program over sources and sinks in memory. They are a crate of their own, so that neither the program nor its
//! libraries are proved twice.
#![tactic(auto)]

#[cfg(test)]
mod commands;
#[cfg(test)]
mod failing;
#[cfg(test)]
mod faulty;
#[cfg(test)]
mod lanes;
#[cfg(test)]
mod running;
#[cfg(test)]
mod scripts;
#[cfg(test)]
mod sentences;
