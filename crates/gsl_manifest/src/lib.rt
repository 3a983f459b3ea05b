//! What goes into a run and what is printed of it: the manifest and the listing.
//!
//! `specs/Spelling.antt` says how a manifest may be spelled, and `specs/Manifests.antt` which lines are one and
//! what it says; `read_manifest` carries them. `Numbers.antt`, `Fields.antt` and `Meanings.antt`
//! compute what lines say, which `spelled_and_read` ties to the spelling; `Drafts.antt` is how the code reads.
//! `specs/Listing.antt` says which text shows an output, and `listing` carries it.
#![tactic(auto)]

mod draft;
mod fields;
mod input;
mod laws;
mod manifest;
mod meaning;
mod output;
mod reading;

pub use input::read_manifest;
pub use laws::{in_their_order, one_output, one_reading, spelled_and_read, written_and_read};
pub use manifest::{BufferLine, BufferLines, Manifest, ManifestRefusal, PushLine};
pub use output::listing;
