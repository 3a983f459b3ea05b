//! Is what a run is given by a manifest proper, and are its numbers in the ranges of their types?
#![tactic(auto)]

mod laws;

pub use laws::given_inputs_are_typed;
