//! Have values the shapes of their types while a valid module runs?
//!
//! Read `specs/Shaped`: a word for a scalar, and for all else a value of its type for each component, element or member. The laws are the
//! contracts of calls that do nothing.
#![tactic(auto)]

mod laws;

pub use laws::{
    constants_have_their_shapes, operations_give_their_shapes, parts_have_their_shapes,
    zeros_have_their_shape,
};
