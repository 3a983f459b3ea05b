//! Where jumps lead.

/// Where `break` and `continue` lead, by the labels, if they may stand there.
#[derive(Clone, Copy, Debug)]
pub struct Exits {
    pub break_to: Option<u32>,
    pub continue_to: Option<u32>,
}
