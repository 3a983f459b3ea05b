//! What the limit on nesting counts.

/// What is counted in one pair of brackets that is still open, or outside of them all.
#[derive(Clone, Copy, Debug, PartialEq, Eq)]
pub struct Counter {
    pub value: u32,
    /// How many `?` wait for their `:`.
    pub choices: u32,
    /// How many of the words `if`, `else`, `do`, `for`, `while` and `switch` are counted.
    pub words: u32,
    /// Whether a `{` directly after a name, `=` or `,` began it.
    pub list: bool,
}
