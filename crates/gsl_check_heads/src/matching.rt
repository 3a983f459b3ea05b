//! Which heads are of one function.

ghost use Rattle.std.specs.Prelude.{◌≡◌, Some, None, IfOk, nat_eq};
ghost use Rattle.std.specs.List.{list_any};
ghost use Rattle.gsl_tree.specs.declared.unit.Function.{Function as Defined};
ghost use Rattle.gsl_check_heads.specs.Heads as spec;
ghost use Rattle.gsl_check_heads.specs.Finding as finding;

use gsl_base::{Memory, Text};
use gsl_check_decl::{SoundEnv, head_key};
use gsl_names::Entry;
use gsl_overload::identical;
use gsl_tree::{Function, Prototype};
use gsl_types::{Direction, Ty};
use std::alloc::Global;

/// Whether types of parameters are the same one by one.
fn same_types(mut a: &[(Direction, Ty)], mut b: &[(Direction, Ty)]) -> bool
    ensures { result ≡ spec.same_types a.entry.now b.entry.now }
{
    while let [x, more @ ..] = a {
        match b {
            [y, others @ ..] => {
                if !identical(&x.1, &y.1) {
                    return false;
                }
                a = more;
                b = others;
            }
            [] => return false,
        }
    }
    b.is_empty()
}

fn same_direction(a: Direction, b: Direction) -> bool
    ensures { result ≡ spec.same_direction a b }
{
    match (a, b) {
        (Direction::In, Direction::In)
        | (Direction::Out, Direction::Out)
        | (Direction::InOut, Direction::InOut) => true,
        _ => false,
    }
}

/// Whether directions of parameters are the same one by one.
fn same_directions(mut a: &[(Direction, Ty)], mut b: &[(Direction, Ty)]) -> bool
    ensures { result ≡ spec.same_directions a.entry.now b.entry.now }
{
    while let [x, more @ ..] = a {
        match b {
            [y, others @ ..] => {
                if !same_direction(x.0, y.0) {
                    return false;
                }
                a = more;
                b = others;
            }
            [] => return false,
        }
    }
    b.is_empty()
}

/// Whether a head is of the function of this name and these parameters.
fn is_of(name: &Text, params: &[(Direction, Ty)], head: &Prototype) -> bool
    ensures { result ≡ spec.is_of name.now params.now head.now }
{
    head.name == *name && same_types(head.params.as_slice(), params)
}

/// Whether the head of a number is of the function of this name and these parameters.
fn is_numbered(
    prototypes: &[Prototype],
    name: &Text,
    params: &[(Direction, Ty)],
    number: u32,
) -> bool
    ensures { result ≡ finding.is_numbered prototypes.now name.now params.now number }
{
    match prototypes.get(number as usize) {
        Some(head) => is_of(name, params, head),
        None => false,
    }
}

/// The number of an entry that is a head of the function of this name and these parameters, or what was found before.
fn found_at(
    prototypes: &[Prototype],
    name: &Text,
    params: &[(Direction, Ty)],
    entry: Entry,
    found: Option<usize>,
) -> Option<usize>
    ensures { result ≡ finding.found_at (finding.is_numbered prototypes.now name.now params.now) found entry }
{
    match entry {
        Entry::Function(number) => {
            if is_numbered(prototypes, name, params, number) {
                Some(number as usize)
            } else {
                found
            }
        }
        _ => found,
    }
}

/// The last of the entries that is a head of the function of this name and these parameters.
#[tactic(auto, unfolding(crate::specs::Finding::oldest))]
fn oldest(
    prototypes: &[Prototype],
    name: &Text,
    params: &[(Direction, Ty)],
    entries: &[Entry],
) -> Option<usize>
    ensures { result ≡ finding.oldest (finding.is_numbered prototypes.now name.now params.now) None entries.now }
{
    let mut found = None;
    let mut rest = entries;
    while let [entry, more @ ..] = rest {
        found = found_at(prototypes, name, params, *entry, found);
        rest = more;
    }
    found
}

/// The number of the first head of a function, by the table of heads.
pub fn head_number(
    alloc: Global,
    env: &SoundEnv,
    name: &Text,
    params: &[(Direction, Ty)],
) -> Result<Option<usize>, Memory>
    ensures { IfOk result (λ number. number ≡ spec.head_number name.now params.now env.now.scene.prototypes) }
{
    let key = head_key(alloc, name, params)?;
    let entries = env.heads_of(alloc, &key)?;
    let prototypes = env.get().scene.prototypes.as_slice();
    Ok(oldest(prototypes, name, params, entries.as_slice()))
}

/// Whether an earlier head has another result or other directions.
fn disagrees_with(returns: &Ty, params: &[(Direction, Ty)], head: &Prototype) -> bool
    ensures { result ≡ spec.disagrees_by returns.now params.now (Some head.now) }
{
    !(identical(&head.result, returns) && same_directions(head.params.as_slice(), params))
}

/// Whether the first head of the function, of this number, has another result or other directions.
pub fn disagrees(
    prototypes: &[Prototype],
    number: Option<usize>,
    returns: &Ty,
    params: &[(Direction, Ty)],
) -> bool
    ensures { result ≡ spec.disagrees_by returns.now params.now (spec.head_at prototypes.now number) }
{
    match number {
        Some(number) => match prototypes.get(number) {
            Some(head) => disagrees_with(returns, params, head),
            None => false,
        },
        None => false,
    }
}

/// Whether one of the functions has this head.
fn is_defined(functions: &[Function], number: usize) -> bool
    ensures { result ≡ list_any (λ (f : Defined). nat_eq f.prototype number) functions.now }
{
    functions.iter().any(|f| f.prototype as usize == number)
}

/// Whether the function has a body already.
pub fn has_body_of(functions: &[Function], number: Option<usize>) -> bool
    ensures { result ≡ spec.has_body_of functions.now number }
{
    match number {
        Some(number) => is_defined(functions, number),
        None => false,
    }
}
