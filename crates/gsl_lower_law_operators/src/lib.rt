//! Do the instructions of operators and conversions compute what the operations give?
#![tactic(auto)]

mod laws;

pub use laws::{
    binary_computes, converted_computes, logical_computes, selected_computes, stepped_computes,
};
