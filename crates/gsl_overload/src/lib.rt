//! Which overload a call chooses (GLSL 4.50, 6.1), and whether two types are one.
//!
//! Read `specs/Best.antt`: which candidates fit, which of two is better, and which one is chosen. `choose` answers
//! exactly that and takes no memory. The laws in `src/laws.rt` say it pairwise: what is chosen fits and beats every
//! other candidate that fits, and there is at most one such.
#![tactic(auto)]

mod choice;
mod fits;
mod identity;
mod laws;

pub use choice::{Choice, Params, Signatures, choose};
pub use identity::identical;
pub use laws::{chosen_is_best, identical_is_equal, one_best};
