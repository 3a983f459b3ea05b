//! Do chains of indexes in a block lead where its layout says?
#![tactic(auto)]

mod laws;

pub use laws::{
    arrays_are_counted, elements_out_of_bounds_stray, layouts_lead, leaves_are_seen, leaves_lie,
    leaves_put_are_seen,
};
