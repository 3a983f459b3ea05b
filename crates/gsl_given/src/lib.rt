//! What a run is given: its manifest, and the bytes of the files that it names.
//!
//! Read `specs/Given.antt`, and `specs/Texts.antt` for what is said of an input that is refused.
#![tactic(auto)]

mod given;
mod stop;
mod texts;

pub use given::{MAX_MANIFEST_BYTES, manifest_of, read_input, read_manifest_file};
pub use stop::Stop;
pub use texts::misfit_text;
