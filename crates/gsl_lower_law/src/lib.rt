//! What is it for instructions to compute a value, and do those of constants, of operators on one value and of components?
#![tactic(auto)]

mod laws;

pub use laws::{
    constants_stand, picked_computes, replaced_computes, steps_join, stretches_join, type_is,
    unary_computes,
};
