ghost use Rattle.std.specs.Prelude.{◌≡◌};
ghost use Rattle.gsl_overload.specs.Identity.{identical as identical_of};

use gsl_types::Ty;

/// Whether two types are one. Struct types are where they have one number.
pub fn identical(a: &Ty, b: &Ty) -> bool
    ensures { result ≡ identical_of a.now b.now }
{
    match (a, b) {
        (Ty::Void, Ty::Void) => true,
        (Ty::One(x), Ty::One(y)) => x == y,
        (Ty::Vector(x, n), Ty::Vector(y, m)) => n == m && x == y,
        (Ty::Array(x, n), Ty::Array(y, m)) => n == m && identical(x.get(), y.get()),
        (Ty::Runtime(x), Ty::Runtime(y)) => identical(x.get(), y.get()),
        (Ty::Struct(i), Ty::Struct(j)) => i == j,
        _ => false,
    }
}
