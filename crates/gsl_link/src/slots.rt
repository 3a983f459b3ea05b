//! What may be used once, and what counts.

use gsl_base::Place;

/// A location of inputs or of outputs, or a binding of a set, by its group and its number there.
#[derive(Clone, Copy, Debug, PartialEq, Eq, Hash)]
pub struct Slot {
    pub group: u32,
    pub number: u32,
}

/// The leaves of a variable, and where it is declared.
#[derive(Clone, Copy, Debug, PartialEq, Eq)]
pub struct Counted {
    pub leaves: u32,
    pub place: Place,
}
