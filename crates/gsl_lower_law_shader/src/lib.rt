//! Does a module end as its shader does? The bodies of well typed functions, all functions of a program, and whole runs.
#![tactic(auto)]

mod laws;

pub use laws::{functions_do_at_each_depth, modules_end_as_shaders, typed_bodies_do};
