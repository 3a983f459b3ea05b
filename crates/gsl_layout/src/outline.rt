use gsl_base::List;

/// A type's base alignment and its size in bytes, which is 2^32 where it is more.
#[derive(Clone, Copy, Debug)]
pub struct Outline {
    pub(crate) align: u32,
    pub(crate) size: u64,
}

/// The outlines of structs in their order.
pub type Outlines = List<Outline>;
