//! What instructions do, as `gsl_machine` says.
#![tactic(auto)]

mod operands;
mod step;
mod values;

pub use operands::all_values;
pub use step::{Step, give_value};
pub use values::{
    bits_extracted, bits_inserted, construct, extended, on_two, on_unary, pick, put_part, selected,
    shuffle, take_part,
};
