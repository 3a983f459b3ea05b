//! Tests of the crates of the house.
#![tactic(auto)]

#[cfg(test)]
mod base;
#[cfg(test)]
mod host;
#[cfg(test)]
mod manifest;
#[cfg(test)]
mod plan;
#[cfg(test)]
mod text;
