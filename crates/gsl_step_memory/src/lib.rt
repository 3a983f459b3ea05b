//! What a machine does where it loads from variables and stores in them.
#![tactic(auto)]

mod loading;
mod moving;
mod pointing;
mod storing;

pub use loading::load;
pub use moving::copy_in;
pub use pointing::{leads_into_block, place_of};
pub use storing::{declare, first_of, store};
