//! How a run goes on.

/// How a run goes on behind an instruction: where the machine stands then, or not, where it ends.
#[derive(Clone, Copy, Debug)]
pub enum Next {
    Goes,
    Ends { killed: bool },
}
