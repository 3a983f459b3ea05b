//! Tests of lexing and preprocessing.
#![tactic(auto)]

#[cfg(test)]
mod conditions;
#[cfg(test)]
mod cooking;
#[cfg(test)]
mod lex;
#[cfg(test)]
mod macros;
#[cfg(test)]
mod nesting;
#[cfg(test)]
mod pp;
