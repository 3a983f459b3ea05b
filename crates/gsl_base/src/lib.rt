//! What every layer of the compiler shares: owned lists, boxes and text as plain values, want of
//! memory, places, fault codes, refusals, stages and tokens.
//!
//! Contracts see a `List` as the list of its items, a `Boxed` as what it holds and a `Text` as its
//! bytes. `specs/Checked.antt` has the word by which a call that may want memory says that its
//! answer is a definition's.
#![tactic(auto)]

mod boxed;
mod fault;
mod input;
mod list;
mod memory;
mod stage;
mod text;
mod token;

pub use boxed::Boxed;
pub use fault::{Code, Fault, Place, Refusal};
pub use input::{
    Buffer, Buffers, Choices32, Comps, Input, InputRefusal, Ins, Located, Output, Outs,
};
pub use list::List;
pub use memory::Memory;
pub use stage::Stage;
pub use text::Text;
pub use token::{Key, Kind, Punct, Raw, RawKind, Raws, Token, Tokens};

/// Bytes of a file, a stream or a module.
pub type Bytes = List<u8>;

/// The words of a command line.
pub type Words = List<Text>;

/// The source files of one stage, in the order in which they were given.
pub type Sources = List<Bytes>;
