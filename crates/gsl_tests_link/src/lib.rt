//! Tests of linking.
#![tactic(auto)]

#[cfg(test)]
mod link;
#[cfg(test)]
mod units;
