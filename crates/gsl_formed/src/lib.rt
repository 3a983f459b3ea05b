//! What is asked of a syntax tree, beyond its types, before it is checked: definitions alone.
//!
//! Read, in `specs/`: `Formed`, which says what literals, commas, names and blocks are, and `Nested`, which says how many arms stand within each other.
#![tactic(auto)]
