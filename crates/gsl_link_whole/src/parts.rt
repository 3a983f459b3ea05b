//! Global variables and functions of a unit, by the new numbers of what they name.

ghost use Rattle.std.specs.Prelude.{◌≡◌, IfOk, map};
ghost use Rattle.gsl_link_units.specs.Types.{retyped as once};
ghost use Rattle.gsl_link_whole.specs.Renumbering as spec;

use crate::copies::{copied, copied_value};
use crate::stmts::{each, optional};
use crate::table::Numbering;
use gsl_base::{List, Memory, Text};
use gsl_link_units::{new_number, retyped};
use gsl_tree::{Expr, Function, GlobalVar};
use gsl_types::{Ty, Types};
use gsl_values::Value;
use std::alloc::Global;

/// A global variable with another initialiser and its value.
fn global_with(
    alloc: Global,
    g: &GlobalVar,
    init: Option<Expr>,
    value: Option<Value>,
) -> Result<GlobalVar, Memory>
    ensures { IfOk result (λ x. x ≡ record g.now { init = init; value = value }) }
{
    let name = Text::from_str(alloc, g.name.as_str())?;
    let ty = copied(alloc, &g.ty)?;
    Ok(GlobalVar {
        name,
        ty,
        constant: g.constant,
        init,
        value,
        place: g.place,
    })
}

/// A global variable by the new numbers, whose type has them already.
pub fn renumbered_global(alloc: Global, n: &Numbering, g: &GlobalVar) -> Result<GlobalVar, Memory>
    ensures { IfOk result (λ x. x ≡ spec.renumbered_global n.now g.now) }
{
    let init = optional(alloc, n, &g.init)?;
    let value = copied_value(alloc, &g.value)?;
    global_with(alloc, g, init, value)
}

fn retyped_locals(alloc: Global, structs: &[u32], locals: &[Ty]) -> Result<Types, Memory>
    ensures { IfOk result (λ ts. ts ≡ map (once structs.now) locals.now) }
{
    let mut all = List::new(alloc);
    for k in 0..locals.len() {
        let ty = retyped(alloc, structs, &locals[k])?;
        all.push(ty)?;
    }
    Ok(all)
}

/// A function by the new numbers.
pub fn renumbered_function(alloc: Global, n: &Numbering, f: &Function) -> Result<Function, Memory>
    ensures { IfOk result (λ x. x ≡ spec.renumbered_function n.now f.now) }
{
    let locals = retyped_locals(alloc, n.structs.as_slice(), f.locals.as_slice())?;
    let body = each(alloc, n, f.body.as_slice())?;
    Ok(Function {
        prototype: new_number(n.heads.as_slice(), f.prototype),
        locals,
        body,
        place: f.place,
    })
}
