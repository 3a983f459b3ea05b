//! What a shader does (GLSL 4.50, chapters 4 to 7), and which inputs fit it.
//!
//! Read, in `specs/`: `State`, `Accesses`, `Running`, then `Expressions`, `Statements`, `Blocks`, `Stages`, `Shader`, and `Fits`. What needs
//! no state is `Operations` and `Values` of `gsl_tree`. `fits` tells which inputs fit.
#![tactic(auto)]

mod fitting;
mod laws;

pub use fitting::fits;
pub use laws::more_units_change_nothing;
