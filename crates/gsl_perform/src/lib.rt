//! What expressions do (GLSL 4.50, chapter 5 and 6.1), performed.
#![tactic(auto)]

mod arguments;
mod around;
mod expressions;
mod frame;
mod parts;
mod stage;
mod stop;
mod world;

pub use around::Around;
pub use frame::Frame;
pub use parts::fails;
pub use stop::Stop;
pub use world::{Called, Found, Passed, World};
