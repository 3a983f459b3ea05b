//! Which candidates fit, and which of two is better.

ghost use Rattle.std.specs.Prelude.{◌≡◌, length};
ghost use Rattle.gsl_overload.specs.Best as spec;

use crate::choice::{Params, Signatures};
use crate::identity::identical;
use gsl_types::{Direction, Ty, Types, converts};

/// Whether an argument of a type fits a parameter.
fn fits_param(param: &(Direction, Ty), arg: &Ty) -> bool
    ensures { result ≡ spec.fits_param param.now arg.now }
{
    identical(&param.1, arg) || is_converted(param.0, &param.1, arg)
}

/// Whether an argument of a type is converted to a parameter, or from it.
fn is_converted(direction: Direction, ty: &Ty, arg: &Ty) -> bool
    ensures { result ≡ spec.is_converted direction ty.now arg.now }
{
    match direction {
        Direction::In => converts(arg, ty),
        Direction::Out => converts(ty, arg),
        Direction::InOut => false,
    }
}

/// Whether arguments of these types fit a candidate.
pub fn fits(args: &Types, params: &Params) -> bool
    ensures { result ≡ spec.fits args.now params.now }
{
    if params.len() != args.len() {
        return false;
    }
    for k in 0..args.len() {
        if !fits_param(&params[k], &args[k]) {
            return false;
        }
    }
    true
}

/// Whether an argument fits exactly at the first parameter and not at the second.
fn is_better(arg: &Ty, first: &(Direction, Ty), second: &(Direction, Ty)) -> bool
    ensures { result ≡ spec.is_better arg.now first.now second.now }
{
    identical(&first.1, arg) && !identical(&second.1, arg)
}

/// Whether no argument is better at the second candidate.
fn never_worse(args: &Types, first: &Params, second: &Params) -> bool
    requires first { length first.now ≡ length args.now }
    requires second { length second.now ≡ length args.now }
    ensures { result ≡ spec.never_worse args.now first.now second.now }
{
    for k in 0..args.len() {
        if is_better(&args[k], &second[k], &first[k]) {
            return false;
        }
    }
    true
}

/// Whether an argument is better at the first candidate.
fn once_better(args: &Types, first: &Params, second: &Params) -> bool
    requires first { length first.now ≡ length args.now }
    requires second { length second.now ≡ length args.now }
    ensures { result ≡ spec.once_better args.now first.now second.now }
{
    for k in 0..args.len() {
        if is_better(&args[k], &first[k], &second[k]) {
            return true;
        }
    }
    false
}

/// Whether one candidate beats another, where both fit.
pub fn beats(args: &Types, first: &Params, second: &Params) -> bool
    requires first { length first.now ≡ length args.now }
    requires second { length second.now ≡ length args.now }
    ensures { result ≡ spec.beats args.now first.now second.now }
{
    never_worse(args, first, second) && once_better(args, first, second)
}
