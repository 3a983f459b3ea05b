//! The preprocessor (GLSL 4.50, 3.3): which live tokens has a source file, or which is its first fault?
//!
//! `Feed` draws them one at a time, and `preprocess` is a loop over it. `specs/Unit.antt` says which they are.
#![tactic(auto)]

mod definition;
mod directive;
mod extension;
mod feed;
mod group;
mod line;
mod state;
mod version;
mod word;

pub use feed::{Feed, preprocess};
pub use group::{Group, Groups};
pub use state::{MAX_TOKENS, State};
