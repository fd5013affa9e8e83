//! Tests of the rules of histories, of lines of reports, of replays, and of judgements, which need nothing private. They are a crate of
//! their own, so that none that they test is proved twice.
#![tactic(auto)]

#[cfg(test)]
mod judgements;
#[cfg(test)]
mod legal_cases;
#[cfg(test)]
mod lines;
#[cfg(test)]
mod points;
#[cfg(test)]
mod replays;
