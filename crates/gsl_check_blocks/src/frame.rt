//! What stands around the members of a block.

use gsl_qualifiers::Qualified;

/// A block as far as it stands before its members.
#[derive(Debug, Drop)]
pub struct Frame {
    /// Whether it is a buffer block.
    pub buffer: bool,
    /// Whether its members are names of their own, since it has no instance name.
    pub bare: bool,
    /// Whether it is laid out by std140.
    pub std140: bool,
    /// What its qualifiers say.
    pub said: Qualified,
}
