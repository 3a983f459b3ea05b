//! The functions of a program by the numbers of their heads.

ghost use Rattle.std.specs.Prelude.{◌≡◌, ◌==◌, MatchOption, None, Some, slice_get};
ghost use Rattle.gsl_meaning.specs.Shader as spec;

use gsl_tree::{Function, Functions, Program, Prototypes};
use gsl_types::Ty;

/// Whether a function has a head.
fn has_head(f: &Function, number: u32) -> bool
    ensures { result ≡ (f.now.prototype == number) }
{
    f.prototype == number
}

/// The function that has a head.
#[tactic(auto, using(gsl_compute::proofs::Loops::opened))]
pub(crate) fn function_of<'a>(functions: &'a Functions, number: u32) -> Option<&'a Function>
    ensures { MatchOption result (spec.function_of functions.now number ≡ None) (λ f. spec.function_of functions.now number ≡ Some f.now) }
{
    for k in 0..functions.len() {
        if has_head(&functions[k], number) {
            return Some(&functions[k]);
        }
    }
    None
}

/// The type that a function gives, by the number of its head.
pub(crate) fn result_type<'a>(heads: &'a Prototypes, none: &'a Ty, number: u32) -> &'a Ty
    requires { none.now ≡ spec.result_type None }
    ensures { result.now ≡ spec.result_type (slice_get heads.now number) }
{
    if number as usize >= heads.len() {
        return none;
    }
    &heads[number as usize].result
}

/// The function that is `main`, if there is one of its number.
pub(crate) fn main_of<'a>(program: &'a Program) -> Option<&'a Function>
    ensures { MatchOption result (slice_get program.now.functions program.now.main ≡ None) (λ f. slice_get program.now.functions program.now.main ≡ Some f.now) }
{
    let number = program.main as usize;
    if number >= program.functions.len() {
        return None;
    }
    Some(&program.functions[number])
}
