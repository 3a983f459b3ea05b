use gsl_base::List;

/// What the layout of a member says of its place (GLSL 4.50, 4.4.5), in bytes.
#[derive(Clone, Copy, Debug, PartialEq, Eq)]
pub struct Placing {
    pub offset: Option<u32>,
    pub align: Option<u32>,
}

/// What is said of the places of members, in their order.
pub type Placings = List<Placing>;
