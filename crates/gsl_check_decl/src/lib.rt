//! What do declarations among statements and structs declare, or which is their first fault (GLSL 4.50, chapters 3 and 4)?
//!
//! Read `specs/Steps.antt` (one after the other, and scopes), `Declaring.antt` (what is asked of every declared name and type),
//! `Locals.antt` (local variables), `Structs.antt`, and then `Declarations.antt`: qualifiers, a type or a struct, and variables.
//! `Globals.antt` is for the crates above.
#![tactic(auto)]

mod asked;
mod declarations;
mod gathered;
mod heads;
mod heights;
mod locals;
mod sound;
mod structs;

pub use asked::{is_declared, is_high, is_reserved, is_void, may_be_had};
pub use declarations::{as_one, declaration};
pub use heads::head_key;
pub use heights::highest;
pub use locals::{
    begun_variable, declarator, known_as, may_be_plain, may_begin, plain_variable, qualified,
    qualified_by, refused_layout, refused_value, set_variable,
};
pub use sound::{Outside, SoundEnv, number_behind, struct_behind};
pub use structs::{declared_whole, may_be_struct, members_of, structured};
