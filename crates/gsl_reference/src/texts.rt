//! The texts that are printed where nothing is listed.

/// The words ask for nothing.
pub const USAGE_TEXT: &[u8] = b"usage\n";

/// The units were used up.
pub const GOING_TEXT: &[u8] = b"steps used up\n";

/// An index was out of bounds.
pub const STRAYED_TEXT: &[u8] = b"strayed\n";
