//! Bytes between quotes.

/// What a byte between quotes is.
#[derive(Clone, Copy, Debug)]
pub enum Step {
    /// The quote that ends them.
    Ends,
    /// A byte that may not stand there.
    Breaks,
    /// Any other; whether it is a backslash that begins an escape.
    Goes(bool),
}
