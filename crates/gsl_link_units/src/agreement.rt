//! When two declarations of one name agree.

ghost use Rattle.std.specs.Prelude.{◌≡◌};
ghost use Rattle.gsl_link_units.specs.Agreement as spec;

use crate::types::same_type;
use gsl_compute::same_value;
use gsl_tree::{BlockKind, BlockMember, GlobalVar, Interface, Prototype};
use gsl_types::{Direction, Ty};
use gsl_values::Value;

fn both_or_neither(a: bool, b: bool) -> bool
    ensures { result ≡ spec.both_or_neither a b }
{
    if a { b } else { !b }
}

// ---- variables

/// Whether the values of initialisers are equal, where both are there.
fn same_initial(a: &Option<Value>, b: &Option<Value>) -> bool
    ensures { result ≡ spec.same_initial a.now b.now }
{
    match (a, b) {
        (Some(v), Some(w)) => same_value(v, w),
        _ => true,
    }
}

pub fn agree_variables(a: &GlobalVar, b: &GlobalVar) -> bool
    ensures { result ≡ spec.agree_variables a.now b.now }
{
    same_type(&a.ty, &b.ty) && same_initial(&a.value, &b.value)
}

/// Inputs and outputs agree in all qualifiers.
pub fn agree_interfaces(a: &Interface, b: &Interface) -> bool
    ensures { result ≡ spec.agree_interfaces a.now b.now }
{
    same_type(&a.ty, &b.ty)
        && both_or_neither(a.output, b.output)
        && both_or_neither(a.flat, b.flat)
        && a.location == b.location
}

// ---- functions

fn same_direction(a: Direction, b: Direction) -> bool
    ensures { result ≡ spec.same_direction a b }
{
    match (a, b) {
        (Direction::In, Direction::In)
        | (Direction::Out, Direction::Out)
        | (Direction::InOut, Direction::InOut) => true,
        _ => false,
    }
}

/// Whether parameters have the same types.
#[tactic(auto, using(crate::proofs::Searching::other_params))]
pub fn same_params(a: &[(Direction, Ty)], b: &[(Direction, Ty)]) -> bool
    ensures { result ≡ spec.same_params a.now b.now }
{
    if a.len() != b.len() {
        return false;
    }
    for k in 0..a.len() {
        if !same_type(&a[k].1, &b[k].1) {
            return false;
        }
    }
    true
}

/// Whether parameters go the same ways.
#[tactic(auto, using(crate::proofs::Searching::other_directions))]
fn same_directions(a: &[(Direction, Ty)], b: &[(Direction, Ty)]) -> bool
    ensures { result ≡ spec.same_directions a.now b.now }
{
    if a.len() != b.len() {
        return false;
    }
    for k in 0..a.len() {
        if !same_direction(a[k].0, b[k].0) {
            return false;
        }
    }
    true
}

/// Whether two heads are of one function: of one name, with one list of parameter types.
pub fn same_function(a: &Prototype, b: &Prototype) -> bool
    ensures { result ≡ spec.same_function a.now b.now }
{
    a.name == b.name && same_params(a.params.as_slice(), b.params.as_slice())
}

/// Functions of one name are overloads, unless their parameters have the same types.
pub fn agree_functions(a: &Prototype, b: &Prototype) -> bool
    ensures { result ≡ spec.agree_functions a.now b.now }
{
    let (x, y) = (a.params.as_slice(), b.params.as_slice());
    !same_params(x, y) || (same_type(&a.result, &b.result) && same_directions(x, y))
}

// ---- blocks

pub fn same_kind(a: BlockKind, b: BlockKind) -> bool
    ensures { result ≡ spec.same_kind a b }
{
    match (a, b) {
        (BlockKind::Uniform, BlockKind::Uniform)
        | (BlockKind::Buffer, BlockKind::Buffer)
        | (BlockKind::Push, BlockKind::Push) => true,
        _ => false,
    }
}

fn same_qualifiers(a: &BlockMember, b: &BlockMember) -> bool
    ensures { result ≡ spec.same_qualifiers a.now b.now }
{
    both_or_neither(a.readonly, b.readonly)
        && both_or_neither(a.writeonly, b.writeonly)
        && both_or_neither(a.coherent, b.coherent)
        && both_or_neither(a.volatile, b.volatile)
        && both_or_neither(a.restrict, b.restrict)
}

fn agree_member(a: &BlockMember, b: &BlockMember) -> bool
    ensures { result ≡ spec.agree_member a.now b.now }
{
    a.name == b.name && same_type(&a.ty, &b.ty) && same_qualifiers(a, b)
}

/// Whether blocks have members of the same names, types and qualifiers.
#[tactic(auto, using(crate::proofs::Searching::other_members))]
pub fn agree_members(a: &[BlockMember], b: &[BlockMember]) -> bool
    ensures { result ≡ spec.agree_members a.now b.now }
{
    if a.len() != b.len() {
        return false;
    }
    for k in 0..a.len() {
        if !agree_member(&a[k], &b[k]) {
            return false;
        }
    }
    true
}
