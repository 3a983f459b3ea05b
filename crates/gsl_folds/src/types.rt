//! Types by their names.

ghost use Rattle.std.specs.Prelude.{IfSome, IsTrue, ℕ};
ghost use Rattle.gsl_types.specs.Known.{IsSound};
ghost use Rattle.gsl_layout.specs.Extents.{plain};

use crate::misread::Misread;
use gsl_base::Boxed;
use gsl_types::{Direction, Scalar, Ty};
use std::alloc::Global;

/// A number in decimal digits.
pub fn number(digits: &str) -> Result<u32, Misread> {
    digits.parse::<u32>().map_err(|_| Misread::Form)
}

/// A type: void, a scalar or a vector, or an array of them.
pub fn read_type(alloc: Global, text: &str) -> Result<Ty, Misread> {
    if text == "void" {
        return Ok(Ty::Void);
    }
    match text.split_once('[') {
        None => element(text),
        Some((name, count)) => {
            let count = number(count.trim_end_matches(']'))?;
            Ok(Ty::Array(Boxed::new(alloc, element(name)?)?, count))
        }
    }
}

fn element(name: &str) -> Result<Ty, Misread> {
    plain(name).ok_or(Misread::Form)
}

/// A scalar or a vector.
pub fn plain(name: &str) -> Option<Ty>
    ensures sound { (known : ℕ) → IfSome result (λ t. IsSound known t) }
    ensures plain { IfSome result (λ t. IsTrue (plain t)) }
{
    let ty = match name {
        "bool" => Ty::One(Scalar::Bool),
        "int" => Ty::One(Scalar::Int),
        "uint" => Ty::One(Scalar::Uint),
        "bvec2" => Ty::Vector(Scalar::Bool, 2),
        "bvec3" => Ty::Vector(Scalar::Bool, 3),
        "bvec4" => Ty::Vector(Scalar::Bool, 4),
        "ivec2" => Ty::Vector(Scalar::Int, 2),
        "ivec3" => Ty::Vector(Scalar::Int, 3),
        "ivec4" => Ty::Vector(Scalar::Int, 4),
        "uvec2" => Ty::Vector(Scalar::Uint, 2),
        "uvec3" => Ty::Vector(Scalar::Uint, 3),
        "uvec4" => Ty::Vector(Scalar::Uint, 4),
        _ => return None,
    };
    Some(ty)
}

/// Which way an argument goes.
pub fn direction(name: &str) -> Result<Direction, Misread> {
    match name {
        "in" => Ok(Direction::In),
        "out" => Ok(Direction::Out),
        "inout" => Ok(Direction::InOut),
        _ => Err(Misread::Form),
    }
}
