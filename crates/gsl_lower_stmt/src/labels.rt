//! Labels of the blocks of a statement.

use gsl_lower_holders::Ids;

/// The second block of an `if`, and the one where both ways meet.
#[derive(Clone, Copy, Debug)]
pub(crate) struct Fork {
    pub(crate) other: u32,
    pub(crate) end: u32,
}

/// The blocks of a loop: its head, its first block, its body behind a test that is made first, its step, and the one behind it.
#[derive(Clone, Copy, Debug)]
pub(crate) struct LoopLabels {
    pub(crate) head: u32,
    pub(crate) first: u32,
    pub(crate) body: u32,
    pub(crate) next: u32,
    pub(crate) end: u32,
}

/// The blocks of the arms of a `switch`, and the one behind it.
#[derive(Debug, Drop)]
pub(crate) struct SwitchLabels {
    pub(crate) arms: Ids,
    pub(crate) end: u32,
}
