//! Where an instruction stands.

ghost use Rattle.std.specs.Prelude.{◌≡◌};
ghost use Rattle.gsl_kinds.specs.Seen.{kind_seen};
ghost use Rattle.gsl_valid.specs.Where as spec;

use crate::kind::Kind;

/// The sections of a module by their numbers (SPIR-V 1.0, 2.4).
pub mod section {
    pub const CAPABILITIES: u32 = 1;

    pub const IMPORTS: u32 = 2;

    pub const MEMORY_MODELS: u32 = 3;

    pub const ENTRY_POINTS: u32 = 4;

    pub const MODES: u32 = 5;

    pub const NAMES: u32 = 6;

    pub const DECORATIONS: u32 = 7;

    pub const GLOBALS: u32 = 8;

    pub const FUNCTIONS: u32 = 9;
}

/// The section to which an instruction belongs, in a function or outside.
pub fn section_in(inside: bool, kind: Kind<'_>) -> u32
    ensures { result ≡ spec.section_in inside (kind_seen kind.entry) }
{
    match kind {
        Kind::Asks => section::CAPABILITIES,
        Kind::Imports => section::IMPORTS,
        Kind::Sets => section::MEMORY_MODELS,
        Kind::Enters { .. } => section::ENTRY_POINTS,
        Kind::Modes { .. } => section::MODES,
        Kind::Debugs => section::NAMES,
        Kind::Decorates(_) => section::DECORATIONS,
        Kind::Declares(_) => section::GLOBALS,
        Kind::Fixes { .. } => section::GLOBALS,
        Kind::Holds(_) => {
            if inside {
                section::FUNCTIONS
            } else {
                section::GLOBALS
            }
        }
        _ => section::FUNCTIONS,
    }
}

/// Whether code stands in a function behind an instruction, where it did so, or not, before.
pub fn inside_after(inside: bool, kind: Kind<'_>) -> bool
    ensures { result ≡ spec.inside_after inside (kind_seen kind.entry) }
{
    match kind {
        Kind::Begins { .. } => true,
        Kind::Ended => false,
        _ => inside,
    }
}
