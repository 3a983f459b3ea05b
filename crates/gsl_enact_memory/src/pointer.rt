use gsl_base::List;

/// Where a pointer leads: into the bytes of a block's variable, so many from their start, with the type of what is there; or into one of the
/// variables that run, along the numbers of members, elements and components.
#[derive(Drop)]
pub enum Pointer {
    InBlock {
        variable: u32,
        offset: usize,
        pointee: u32,
    },
    InVariable {
        number: usize,
        path: List<u32>,
    },
}

/// What an index leads to: a part, nothing since it is not below the count, or nothing since there is no meaning.
#[derive(Drop)]
pub enum Reached {
    To(Pointer),
    Strays,
    Nowhere,
}
