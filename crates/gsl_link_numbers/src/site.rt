//! Where a global variable is declared.

/// A declaration of a global variable, by the number of its unit and its number there.
#[derive(Clone, Copy, Debug, PartialEq, Eq, Hash)]
pub struct Site {
    pub unit: u32,
    pub index: u32,
}

/// A declaration that stands for a variable, and whether it has an initialiser.
#[derive(Clone, Copy, Debug, PartialEq, Eq)]
pub struct Spot {
    pub site: Site,
    pub begun: bool,
}
