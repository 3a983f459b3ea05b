//! Tests of what a machine in place stands on.
#![tactic(auto)]

#[cfg(test)]
mod constants;
#[cfg(test)]
mod frames;
#[cfg(test)]
mod region;
