//! Calls with their places.

use gsl_base::{List, Place};

/// A call of a function, by the number of its head, at the place of the call.
#[derive(Clone, Copy, Debug, PartialEq, Eq)]
pub struct Call {
    pub head: u32,
    pub place: Place,
}

/// Calls in their order.
pub type Calls = List<Call>;
