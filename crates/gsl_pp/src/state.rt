//! What directives change.

use crate::group::Groups;
use gsl_macros::Macros;

/// How many tokens a unit looks at and puts by macros at most.
pub const MAX_TOKENS: u32 = 1_000_000;

/// What directives change: the macros and lines, the groups that are open, and what is left of the count.
#[derive(Drop)]
pub struct State {
    pub macros: Macros,
    pub groups: Groups,
    pub left: u32,
}
