//! The builder of modules: SPIR-V section by section, with one id for equal types and constants.
//!
//! Contracts see a `Builder` as the record of `specs/Sections.antt`. `specs/Calls.antt` says what each call does
//! to it and which id it gives, `specs/Finished.antt` which module `finish` gives. `specs/Growing.antt` has the
//! words for what lasts: sections only grow, and an id keeps its definition; the laws stand in `src/laws.rt`.
#![tactic(auto)]

mod builder;
mod calls;
mod finishing;
mod globals;
mod key;
mod laws;
mod notes;
mod plain;
mod refusal;

pub use builder::Builder;
pub use laws::{
    answers_are_defined, definitions_last, growing_on, modules_have_files, one_id, what_is_once,
};
pub use plain::{PlainConst, PlainType};
pub use refusal::{BuildRefusal, MOST_IDS};
