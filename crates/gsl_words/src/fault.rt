//! Why bytes are no module.

ghost use Rattle.std.specs.Prelude.{◌≡◌};
ghost use Rattle.gsl_words.specs.declared.fault.WordFault.TheVariants.{Memory as WantOfMemory};

use gsl_base::Memory;
use thiserror::Error;

/// Why bytes are no module. A number is the place of an instruction's first word, counted in words from the
/// file's start.
#[derive(Clone, Copy, Debug, PartialEq, Eq, Error)]
pub enum WordFault {
    /// Fewer bytes than a header has, or a part of a word.
    #[error("the file is no whole number of words, or has no whole header")]
    NotWhole,
    #[error("the most significant bytes come first")]
    BigEndian,
    #[error("the file does not begin with the magic number")]
    BadMagic,
    /// Another version, a generator, or a last word that is not zero.
    #[error("the header is not one of a known version")]
    BadHeader,
    #[error("word {0}: the opcode is not known")]
    UnknownOpcode(u32),
    /// Another count of words than the instruction may have, or more than are left.
    #[error("word {0}: the count of words is wrong")]
    BadCount(u32),
    /// No text where one must stand.
    #[error("word {0}: the text is not well formed")]
    BadString(u32),
    #[error("out of memory")]
    Memory,
}

impl From<Memory> for WordFault {
    ghost from_gives = { λ _ fault. fault ≡ WantOfMemory };

    fn from(_error: Memory) -> WordFault {
        WordFault::Memory
    }
}
