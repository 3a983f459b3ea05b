use gsl_makers::Heights;
use gsl_names::Names;
use gsl_typing::Scene;

/// What an expression is checked in: the names in their scopes, and what they stand for.
#[derive(Drop)]
pub struct Env {
    pub names: Names,
    pub scene: Scene,
    /// The heights of the structs of the scene, by their numbers.
    pub heights: Heights,
}
