//! What are the instructions of a module to it, and what do its ids stand for?
//!
//! `kind_at` reads an instruction as `specs/Kinds.antt` of `gsl_valid` does. What an id stands for is asked of `Definitions`
//! (`gsl_ids`); `types.rt` answers what `specs/Types.antt` there says.
#![tactic(auto)]

mod kind;
mod lanes;
mod parts;
mod places;
mod reading;
mod runtimes;
mod types;

pub use kind::{Decoration, Kind, Place, Shape, Value, Variable};
pub use lanes::{Lanes, Scalar, is_ints, is_ints_of, is_truth, lanes_of, same_size};
pub use parts::{Parts, are_parts, have_each};
pub use places::{inside_after, section, section_in};
pub use reading::{kind_at, kind_if};
pub use runtimes::Runtimes;
pub use types::{
    has_type, initialises, is_bool, is_constant_of, is_int, is_int_value, is_local_pointer,
    is_runtime, is_struct, is_value_type, is_void, shape_in, shape_of, type_in, type_of, value_in,
    value_of,
};
