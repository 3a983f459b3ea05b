//! Are the states of a function, where they are those of the shader, typed?
#![tactic(auto)]

mod laws;

pub use laws::states_of_shaders_are_typed;
