/// The words of 1 to 4 components, lowest first; what stands past `count` is not looked at, and is 0 in every answer.
#[derive(Clone, Copy, Debug, PartialEq, Eq)]
pub struct Lanes {
    pub words: [u32; 4],
    pub count: u32,
}
