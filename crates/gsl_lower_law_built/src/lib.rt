//! Do `,`, built-in functions, constructors and selected values as they are lowered do what they mean?
#![tactic(auto)]

mod laws;

pub use laws::{
    array_composes, built_gives, composed_gives, constructed_gives, selected_gives, sequence_gives,
    shape_constructs, struct_composes,
};
