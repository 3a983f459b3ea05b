//! Plain slow programs for what a shader does and for what its module does: `run_shader` runs a shader on
//! the words of its block, `run_module` a module on the bytes of its buffers, one instruction after the
//! other. Each answers what the definition says, of `specs/Shader.antt` and `specs/Machine.antt` of
//! `gsl_cmd`.
#![tactic(auto)]

mod machine;
mod shader;

pub use machine::{SlowRun, run_module};
pub use shader::{fits_shader, run_shader};
