/// The stage that a shader is for (GLSL 4.50, chapter 2).
#[derive(Clone, Copy, Debug, PartialEq, Eq)]
pub enum Stage {
    Vertex,
    Fragment,
    Compute,
}
