ghost use Rattle.std.specs.Prelude.{◌≡◌, ◌<◌, [], ◌∷◌, ◌++◌, length, OnOk};
ghost use Rattle.gsl_instr.specs.Strings.{string_words, word_of};

use gsl_base::{List, Memory};

/// Adds the words of a text at the end of the operands (SPIR-V 1.0, 2.2.1). After `Memory` they have
/// gained some of them.
pub fn push_string(args: &mut List<u32>, text: &str) -> Result<(), Memory>
    ensures { OnOk result (args.new ≡ args.old ++ string_words text.now) }
{
    let mut rest = text.as_bytes();
    while let [a, b, c, d, more @ ..] = rest {
        args.push(word(*a, *b, *c, *d))?;
        rest = more;
    }
    args.push(last_word(rest))
}

/// The word that ends a text, with the one to three bytes that are left of it, if any.
fn last_word(rest: &[u8]) -> u32
    requires { length rest.now < 4 }
    ensures { result ∷ [] ≡ string_words rest.now }
{
    match rest {
        [a] => word(*a, 0, 0, 0),
        [a, b] => word(*a, *b, 0, 0),
        [a, b, c] => word(*a, *b, *c, 0),
        _ => 0,
    }
}

/// The word of four bytes, the least first.
fn word(a: u8, b: u8, c: u8, d: u8) -> u32
    ensures { result ≡ word_of a b c d }
{
    u32::from(a) + 256 * u32::from(b) + 65536 * u32::from(c) + 16777216 * u32::from(d)
}
