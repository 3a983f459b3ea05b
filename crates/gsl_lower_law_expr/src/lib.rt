//! Do expressions as they are lowered do what they mean?
#![tactic(auto)]

mod laws;

pub use laws::{
    binary_gives, both_give, constant_gives, conversion_gives, forked_gives, operands_give,
    short_gives, unary_gives,
};
