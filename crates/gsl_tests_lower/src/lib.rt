//! Tests of lowering.
#![tactic(auto)]

#[cfg(test)]
mod statements;
