//! Which types there are, which convert to which, which are the same, and how many leaves they have.
#![tactic(auto)]

mod declare;
mod laws;
mod queries;
mod ty;

pub use declare::next_struct;
pub use laws::{struct_leaves, struct_spelling};
pub use queries::{MOST_LEAVES, components, converts, leaves, same};
pub use ty::{Direction, Member, Members, Scalar, StructType, Structs, Ty, Types};
