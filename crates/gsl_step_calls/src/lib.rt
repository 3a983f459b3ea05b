//! What a machine does where functions end, and what it keeps where they begin.
#![tactic(auto)]

mod ending;
mod laws;
mod next;
mod returning;

pub use ending::{kill, leave};
pub use laws::calls_are_entered;
pub use next::Next;
pub use returning::leave_with;
