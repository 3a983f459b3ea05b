//! What a shader comes to.

use gsl_base::Output;

/// What a shader comes to: it ends with an output, an index was out of bounds, or a unit was wanting.
#[derive(Debug, Drop)]
pub enum Performed {
    Ended(Output),
    Strayed,
    Going,
}
