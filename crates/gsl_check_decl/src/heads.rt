//! Heads of functions by their keys.

ghost use Rattle.std.specs.Prelude.{◌≡◌, ◌++◌, [], encode_utf8, IfOk, OnOk};
ghost use Rattle.gsl_check_decl.specs.Tables as spec;

use gsl_base::{Memory, Text};
use gsl_types::{Direction, Scalar, Ty};
use std::alloc::Global;

fn letter(scalar: Scalar) -> char
    ensures { result ≡ spec.letter scalar }
{
    match scalar {
        Scalar::Bool => 'b',
        Scalar::Int => 'i',
        Scalar::Uint => 'u',
    }
}

fn digit(count: u32) -> char
    ensures { result ≡ spec.digit count }
{
    if count == 2 {
        '2'
    } else if count == 3 {
        '3'
    } else {
        '4'
    }
}

/// Puts what kind of type it is behind a text.
fn push_type(text: &mut Text, ty: &Ty) -> Result<(), Memory>
    ensures { OnOk result (text.new ≡ text.old ++ spec.type_key ty.now) }
{
    match ty {
        Ty::Void => text.push('v'),
        Ty::One(scalar) => text.push(letter(*scalar)),
        Ty::Vector(scalar, count) => {
            text.push(letter(*scalar))?;
            text.push(digit(*count))
        }
        Ty::Array(_, _) => text.push('a'),
        Ty::Runtime(_) => text.push('r'),
        Ty::Struct(_) => text.push('s'),
    }
}

/// The key of the heads of a function: its name, and the kinds of its parameters' types.
#[tactic(auto, unfolding(crate::specs::Tables::types_key))]
pub fn head_key(alloc: Global, name: &Text, params: &[(Direction, Ty)]) -> Result<Text, Memory>
    ensures { IfOk result (λ key. key ≡ spec.head_key name.now params.now) }
{
    let mut key = Text::from_str(alloc, name.as_str())?;
    let mut rest = params;
    while let [param, more @ ..] = rest {
        push_type(&mut key, &param.1)?;
        rest = more;
    }
    Ok(key)
}
