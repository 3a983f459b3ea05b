/// What stands at the top of a layout.
#[derive(Clone, Copy, Debug)]
pub enum Kind {
    /// So many scalar components in a row.
    Leaf(u32),
    /// An array of a count of elements, or a runtime array.
    Array,
    /// So many members.
    Group(u32),
}
