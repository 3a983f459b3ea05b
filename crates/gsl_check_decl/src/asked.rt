//! What is asked of whatever is declared.

ghost use Rattle.std.specs.Prelude.{◌≡◌, IsTrue, length};
ghost use Rattle.gsl_types.specs.Known.{IsSound, sound, is_plain as is_plain_type};
ghost use Rattle.gsl_layout.specs.Extents.{plain};
ghost use Rattle.gsl_makers.specs.Heights.{AreHeights};
ghost use Rattle.gsl_check_decl.specs.Declaring as spec;

use gsl_base::Text;
use gsl_check_expr::Env;
use gsl_makers::is_low;
use gsl_overload::identical;
use gsl_types::Ty;
use gsl_typing::Scene;

/// Whether the innermost scope has a name already.
#[tactic(auto, unfolding(crate::specs::Declaring::is_declared))]
pub fn is_declared(env: &Env, name: &Text) -> bool
    ensures { result ≡ spec.is_declared env.now name.now }
{
    env.names.find_here(name).is_some()
}

/// Whether a name begins with `gl_` (GLSL 4.50, 3.7).
#[tactic(auto, unfolding(crate::specs::Declaring::is_reserved))]
pub fn is_reserved(name: &Text) -> bool
    ensures { result ≡ spec.is_reserved name.now }
{
    name.as_str().as_bytes().starts_with(b"gl_")
}

/// Whether a type is `void`.
pub fn is_void(ty: &Ty) -> bool
    ensures { result ≡ spec.is_void ty.now }
{
    identical(ty, &Ty::Void)
}

/// Whether no `void` and no runtime array stands in a type.
fn is_plain(ty: &Ty) -> bool
    ensures is { result ≡ is_plain_type ty.now }
    ensures laid { result ≡ plain ty.now }
{
    match ty {
        Ty::Void | Ty::Runtime(_) => false,
        Ty::One(_) | Ty::Vector(_, _) | Ty::Struct(_) => true,
        Ty::Array(element, _) => is_plain(element.get()),
    }
}

/// Whether the parts of a type over so many structs are there.
fn is_sound(count: usize, ty: &Ty) -> bool
    ensures { result ≡ sound count ty.now }
{
    match ty {
        Ty::Void | Ty::One(_) => true,
        Ty::Vector(_, components) => *components >= 2 && *components <= 4,
        Ty::Array(element, size) => *size >= 1 && is_sound(count, element.get()),
        Ty::Runtime(element) => is_sound(count, element.get()),
        Ty::Struct(number) => (*number as usize) < count,
    }
}

/// Whether variables and members may have a type.
#[tactic(auto, unfolding(crate::specs::Declaring::may_be_had))]
pub fn may_be_had(scene: &Scene, ty: &Ty) -> bool
    ensures is { result ≡ spec.may_be_had scene.now ty.now }
    ensures sound { IsTrue result → IsSound (length scene.now.structs) ty.now }
    ensures plain { IsTrue result → IsTrue (plain ty.now) }
{
    is_plain(ty) && is_sound(scene.structs.len(), ty)
}

/// Whether a type is higher than types may be.
#[tactic(auto, unfolding(crate::specs::Declaring::is_high))]
pub fn is_high(env: &Env, ty: &Ty) -> bool
    requires heights { AreHeights env.now.scene.structs env.now.heights }
    ensures { result ≡ spec.is_high env.now.scene ty.now }
{
    !is_low(&env.scene.structs, &env.heights, ty, 64)
}
