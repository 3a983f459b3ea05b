//! The parameters that each built-in function may have.

ghost use Rattle.std.specs.Prelude.{◌≡◌, ◌++◌, map, IfOk};
ghost use Rattle.gsl_calls.specs.Candidates as spec;

use gsl_base::{List, Memory};
use gsl_overload::{Params, Signatures};
use gsl_types::{Direction, Scalar};
use gsl_typing::{Shape, of_shape};
use gsl_values::Builtin;
use std::alloc::Global;

/// How the parameters of a built-in function hang together. `s` is a scalar type and `n` a count of components.
#[derive(Clone, Copy, Debug, PartialEq, Eq)]
pub enum Family {
    /// One of `s` by `n`.
    One,
    /// Two of them.
    Two,
    /// One, and a scalar of `s`.
    Bounded,
    /// Three of them.
    Three,
    /// One, and two scalars of `s`.
    Clamped,
    /// Two of them, and a `bool` by `n`.
    Mixed,
    /// One, and two `int` scalars.
    Extracted,
    /// Two of them, and two `int` scalars.
    Inserted,
}

const COUNT: Shape = (Scalar::Int, 1);

/// The parameters of these shapes, which all go in.
fn params_of(alloc: Global, shapes: &[Shape]) -> Result<Params, Memory>
    ensures { IfOk result (λ params. params ≡ map spec.param_of shapes.now) }
{
    let mut params = List::new(alloc);
    for k in 0..shapes.len() {
        params.push((Direction::In, of_shape(shapes[k])))?;
    }
    Ok(params)
}

/// The parameters of a candidate of a family.
fn signature(alloc: Global, family: Family, s: Scalar, n: u32) -> Result<Params, Memory>
    ensures { IfOk result (λ params. params ≡ spec.signature family s n) }
{
    let of = (s, n);
    match family {
        Family::One => params_of(alloc, &[of]),
        Family::Two => params_of(alloc, &[of, of]),
        Family::Bounded => params_of(alloc, &[of, (s, 1)]),
        Family::Three => params_of(alloc, &[of, of, of]),
        Family::Clamped => params_of(alloc, &[of, (s, 1), (s, 1)]),
        Family::Mixed => params_of(alloc, &[of, of, (Scalar::Bool, n)]),
        Family::Extracted => params_of(alloc, &[of, COUNT, COUNT]),
        Family::Inserted => params_of(alloc, &[of, of, COUNT, COUNT]),
    }
}

/// Adds the candidates of a family for vectors.
fn with_vectors(
    alloc: Global,
    list: Signatures,
    family: Family,
    s: Scalar,
) -> Result<Signatures, Memory>
    ensures { IfOk result (λ l. l ≡ list ++ spec.vectors family s) }
{
    let mut list = list;
    list.push(signature(alloc, family, s, 2)?)?;
    list.push(signature(alloc, family, s, 3)?)?;
    list.push(signature(alloc, family, s, 4)?)?;
    Ok(list)
}

/// Adds the candidates of a family for scalars and vectors.
fn with_all(
    alloc: Global,
    list: Signatures,
    family: Family,
    s: Scalar,
) -> Result<Signatures, Memory>
    ensures { IfOk result (λ l. l ≡ list ++ spec.all family s) }
{
    let mut list = list;
    list.push(signature(alloc, family, s, 1)?)?;
    with_vectors(alloc, list, family, s)
}

/// Adds the candidates of a family for `int` and `uint` and their vectors.
fn with_integers(alloc: Global, list: Signatures, family: Family) -> Result<Signatures, Memory>
    ensures { IfOk result (λ l. l ≡ list ++ spec.integers family) }
{
    let list = with_all(alloc, list, family, Scalar::Int)?;
    with_all(alloc, list, family, Scalar::Uint)
}

/// Adds the candidates of a family for vectors of `int` and of `uint`.
fn with_integer_vectors(
    alloc: Global,
    list: Signatures,
    family: Family,
) -> Result<Signatures, Memory>
    ensures { IfOk result (λ l. l ≡ list ++ spec.integer_vectors family) }
{
    let list = with_vectors(alloc, list, family, Scalar::Int)?;
    with_vectors(alloc, list, family, Scalar::Uint)
}

/// The candidates of a call of a built-in function.
#[tactic(auto, unfolding(crate::specs::Candidates::candidates))]
pub fn candidates(alloc: Global, which: Builtin) -> Result<Signatures, Memory>
    ensures { IfOk result (λ l. l ≡ spec.candidates which) }
{
    let list = List::new(alloc);
    match which {
        Builtin::Abs | Builtin::Sign => with_all(alloc, list, Family::One, Scalar::Int),
        Builtin::Min | Builtin::Max => {
            let list = with_integers(alloc, list, Family::Two)?;
            with_integer_vectors(alloc, list, Family::Bounded)
        }
        Builtin::Clamp => {
            let list = with_integers(alloc, list, Family::Three)?;
            with_integer_vectors(alloc, list, Family::Clamped)
        }
        Builtin::Mix => {
            let list = with_integers(alloc, list, Family::Mixed)?;
            with_all(alloc, list, Family::Mixed, Scalar::Bool)
        }
        Builtin::LessThan
        | Builtin::LessThanEqual
        | Builtin::GreaterThan
        | Builtin::GreaterThanEqual => with_integer_vectors(alloc, list, Family::Two),
        Builtin::Equal | Builtin::NotEqual => {
            let list = with_integer_vectors(alloc, list, Family::Two)?;
            with_vectors(alloc, list, Family::Two, Scalar::Bool)
        }
        Builtin::Any | Builtin::All | Builtin::Not => {
            with_vectors(alloc, list, Family::One, Scalar::Bool)
        }
        Builtin::BitCount | Builtin::FindLsb | Builtin::FindMsb | Builtin::BitfieldReverse => {
            with_integers(alloc, list, Family::One)
        }
        Builtin::BitfieldExtract => with_integers(alloc, list, Family::Extracted),
        Builtin::BitfieldInsert => with_integers(alloc, list, Family::Inserted),
    }
}
