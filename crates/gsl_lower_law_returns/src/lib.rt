//! Where does a function lead that is left, and how does its caller stand then?
#![tactic(auto)]

mod laws;

pub use laws::functions_return;
