//! The raw tokens of a source file.

ghost use Rattle.std.specs.Prelude.{◌≡◌, ◌<◌, ◌^◌, length, IfOk};
ghost use Rattle.gsl_base.specs.Checked.{Gives};
ghost use Rattle.gsl_lex.specs.Ordered.{InLines};
ghost use Rattle.gsl_lex.specs.Raws as spec;
ghost use Rattle.gsl_lex.specs.Raws.{Answers, IsLexed};

use crate::piece::{Lexeme, read};
use crate::text::{Char, Cursor};
use gsl_base::{Code, Fault, Place, Raw, Raws, Refusal};
use std::alloc::Global;

/// The raw tokens of the source file of this number, or `Source` with E0102 at a comment that is not
/// closed (GLSL 4.50, 3.1 to 3.7). Lines do not fall from one token to the next, the first token starts a
/// line, and each later one that starts a line stands on a later line than the token before it.
pub fn lex(alloc: Global, unit: u32, bytes: &[u8]) -> Result<Raws, Refusal>
    requires { length bytes.now < 2 ^ 32 }
    ensures answer { Gives result (spec.raws_of unit bytes.now) }
    ensures cut { Answers (IsLexed unit bytes.now) result }
    ensures lines { IfOk result InLines }
{
    tokens(alloc, unit, bytes)
}

/// The loop over the pieces.
fn tokens(alloc: Global, unit: u32, bytes: &[u8]) -> Result<Raws, Refusal>
    requires { length bytes.now < 2 ^ 32 }
    ensures { Gives result (spec.raws_of unit bytes.now) }
{
    let mut raws = Raws::new(alloc);
    let mut cursor = Cursor::new(bytes);
    let mut starts_line = true;
    let mut spaced = false;
    while let Some((first, after)) = cursor.step() {
        let place = place_of(unit, first);
        let Some((lexeme, rest)) = read(alloc, first.byte, after)? else {
            return Err(unclosed(place));
        };
        match lexeme {
            Lexeme::LineEnd => {
                starts_line = true;
                spaced = true;
            }
            Lexeme::Blank => spaced = true,
            Lexeme::Token(kind) => {
                raws.push(Raw {
                    place,
                    kind,
                    starts_line,
                    spaced,
                })?;
                starts_line = false;
                spaced = false;
            }
        }
        cursor = rest;
    }
    Ok(raws)
}

fn place_of(unit: u32, first: Char) -> Place
    requires { first.line < 2 ^ 32 }
    ensures { result ≡ record { unit = unit; line = first.line } }
{
    Place {
        unit,
        line: first.line as u32,
    }
}

fn unclosed(place: Place) -> Refusal
    ensures { result ≡ Refusal.Source (record { place = place; code = Code.E0102 }) }
{
    Refusal::Source(Fault {
        place,
        code: Code::E0102,
    })
}
