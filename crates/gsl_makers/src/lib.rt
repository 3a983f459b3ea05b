//! What do indexes, members, swizzles, lengths, constructors and initialiser lists make of typed parts, and which faults have they
//! (GLSL 4.50, 5.4 to 5.7 and 4.1.11)?
//!
//! Read `specs/Members.antt` and `Swizzles.antt`, `Paths.antt`, and then `Constructors.antt`. Each call answers its definition, unless
//! memory was wanting.
#![tactic(auto)]

mod constructors;
mod heights;
mod members;
mod paths;
mod queue;
mod supplies;
mod swizzles;

pub use constructors::{Parts, build};
pub use heights::{Heights, is_low};
pub use members::{Found, block_member_of, struct_member};
pub use paths::{Picked, block_member, index, is_index, member, method};
pub use queue::Queue;
pub use swizzles::{Letters, swizzle};
