//! The compiler: from the words of a command line and the files that they name to a module's file, or to what
//! the module gives on an input, and a status.
//!
//! `glsl_main` carries what a run does, against the job of its words and files (`specs/Job.antt`,
//! `specs/Performs.antt`), and `compile` what a source compiles to (`specs/Verdict.antt`): the lexer, the
//! preprocessor and the parser come first, and then the form that is built so far is asked of the tree
//! (`gsl_form`). `specs/Lowering.antt` has the module of each program, which carries it as `specs/Carries.antt` says and is small as `specs/Weight.antt` says. The law `headline`
//! says what that comes to.
#![tactic(auto)]

mod agreeing;
mod checking;
mod code;
mod command;
mod compiling;
mod converting;
mod laws;
mod lowering;
mod meaning;
mod printing;
mod running;
mod stop;
mod text;
mod validity;

pub use agreeing::{
    compiled_modules_do_as_shaders, lowered_modules_do_as_shaders, programs_of_sources_are_linked,
    runs_list_what_shaders_give,
};
pub use command::{glsl_main, read_sources};
pub use compiling::{MAX_SOURCE_BYTES, MAX_SOURCES, compile, compile_for, linked};
pub use gsl_manifest::{
    BufferLine, BufferLines, Manifest, ManifestRefusal, PushLine, listing, read_manifest,
};
pub use laws::{one_job, one_verdict};
pub use lowering::lower;
pub use meaning::{headline, module_runs};
pub use printing::{say, show_text};
pub use stop::Stop;
pub use text::{HOST_TEXT, told_fault};
pub use validity::{module_is_placed, module_is_portable, module_is_small, module_is_valid};
