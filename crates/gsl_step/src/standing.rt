//! Where a function stands.

/// Where a function stands: the numbers of the instruction that is next, or of the call that waits, and of the first of its body; and where its slots begin, and
/// its variables among the words of all.
#[derive(Clone, Copy, Debug)]
pub struct Standing {
    pub at: u32,
    pub body: u32,
    pub slots: u64,
    pub variables: u64,
}
