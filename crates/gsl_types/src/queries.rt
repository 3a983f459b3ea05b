ghost use Rattle.std.specs.Prelude.{◌≡◌, ◌^◌, ◌<◌, ◌↔◌, ℕ, IsTrue, length};
ghost use Rattle.gsl_types.specs.Conversions.{components as components_of, converts as converts_of, serves as serves_for};
ghost use Rattle.gsl_types.specs.Known.{AreStructs, IsSound};
ghost use Rattle.gsl_types.specs.Leaves.{told_leaves};
ghost use Rattle.gsl_types.specs.Spelling.{spelled};
ghost use Rattle.gsl_types.specs.declared.ty.Ty.TheVariants as ty;

use crate::ty::{Scalar, StructType, Structs, Ty};

/// No count of leaves is told beyond this.
pub const MOST_LEAVES: u64 = 1 << 40;

/// Whether a value of a scalar type serves where another is needed.
fn serves(from: Scalar, to: Scalar) -> bool
    ensures { result ≡ serves_for from to }
{
    from == to || (from == Scalar::Int && to == Scalar::Uint)
}

/// Whether a value of one type serves where another is needed: it has that scalar or vector type,
/// or is an `int` or a vector of them where `uint` is needed (GLSL 4.50, 4.1.10).
pub fn converts(from: &Ty, to: &Ty) -> bool
    ensures { result ≡ converts_of from.now to.now }
{
    match (from, to) {
        (Ty::One(a), Ty::One(b)) => serves(*a, *b),
        (Ty::Vector(a, n), Ty::Vector(b, m)) => n == m && serves(*a, *b),
        _ => false,
    }
}

/// The count of components: 1 for a scalar, two to four for a vector, else 0.
pub fn components(ty: &Ty) -> u32
    ensures { result ≡ components_of ty.now }
{
    match ty {
        Ty::One(_) => 1,
        Ty::Vector(_, count) => *count,
        _ => 0,
    }
}

/// The count of leaves, which are the scalar components; a runtime array has none. A count beyond
/// 2^40 is told as that. No struct is walked: its own count is looked up.
pub fn leaves(structs: &Structs, ty: &Ty) -> u64
    requires known { AreStructs structs.now }
    requires sound { IsSound (length structs.now) ty.now }
    ensures { result ≡ told_leaves structs.now ty.now }
{
    match ty {
        Ty::Void | Ty::Runtime(_) => 0,
        Ty::One(_) => 1,
        Ty::Vector(_, count) => *count as u64,
        Ty::Array(element, count) => {
            let each = leaves(structs, element.get());
            each.saturating_mul(*count as u64).min(MOST_LEAVES)
        }
        Ty::Struct(number) => structs[*number as usize].leaves,
    }
}

/// Whether two types are the same: of one kind and of the same parts, structs being the same where
/// their names are, and the names and types of their members (GLSL 4.50, 4.1.8; linking).
#[cycle(same)]
pub fn same(structs: &Structs, a: &Ty, b: &Ty) -> bool
    requires known { AreStructs structs.now }
    requires first { IsSound (length structs.now) a.now }
    requires second { IsSound (length structs.now) b.now }
    ensures { IsTrue result ↔ (spelled structs.now a.now ≡ spelled structs.now b.now) }
{
    match (a, b) {
        (Ty::Void, Ty::Void) => true,
        (Ty::One(x), Ty::One(y)) => x == y,
        (Ty::Vector(x, n), Ty::Vector(y, m)) => n == m && x == y,
        (Ty::Array(x, n), Ty::Array(y, m)) => n == m && same(structs, x.get(), y.get()),
        (Ty::Runtime(x), Ty::Runtime(y)) => same(structs, x.get(), y.get()),
        (Ty::Struct(i), Ty::Struct(j)) => i == j || same_structs(structs, *i, *j),
        _ => false,
    }
}

/// Whether two structs, by their numbers, are the same.
#[cycle(same)]
fn same_structs(structs: &Structs, i: u32, j: u32) -> bool
    requires known { AreStructs structs.now }
    requires first { i < length structs.now }
    requires second { j < length structs.now }
    ensures { IsTrue result ↔ (spelled structs.now (ty.Struct i) ≡ spelled structs.now (ty.Struct j)) }
{
    let a = &structs[i as usize];
    let b = &structs[j as usize];
    if a.name != b.name || a.members.len() != b.members.len() {
        return false;
    }
    for k in 0..a.members.len() {
        let x = &a.members[k];
        let y = &b.members[k];
        if x.name != y.name || !same(structs, &x.ty, &y.ty) {
            return false;
        }
    }
    true
}
