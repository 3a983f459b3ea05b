//! What the outside may do: files and standard streams behind one trait, whose clauses say what each
//! call does and that it fails only where the faults of what it reached for rose.
//!
//! `specs/Outside.antt` has the words of the clauses; `Host` in `src/host.rt` carries them. `MemHost`
//! keeps its files and streams in memory and tells them all: contracts see it as a `Held`, and
//! `specs/Held.antt` says what each call leaves of one. `FileHost` works on real files and streams and
//! tells nothing but its faults: contracts see it as the targets of its failed calls.
#![tactic(auto)]

mod faults;
mod file;
mod file_table;
mod host;
mod mem;
mod target;

pub use file::FileHost;
pub use host::Host;
pub use mem::MemHost;
pub use target::{HostRefusal, ReadRefusal, Stream, Target};
