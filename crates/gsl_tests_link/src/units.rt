//! Small typed units, built by hand.

ghost use Rattle.std.specs.Prelude.{IfOk};
ghost use Rattle.gsl_tests_link.specs.Bare.{AreBare, IsBare};

use gsl_base::{Code, Fault, List, Memory, Place, Refusal, Stage, Text};
use gsl_link::link;
use gsl_tree::{
    Expr, ExprKind, Exprs, Function, Functions, GlobalVar, Globals, Program, Prototype, Prototypes,
    Stmt, TypedUnit, TypedUnits,
};
use gsl_types::{Scalar, Ty};
use std::alloc::Global;

pub(crate) fn at(unit: u32, line: u32) -> Place {
    Place { unit, line }
}

pub(crate) fn fault(code: Code, unit: u32, line: u32) -> Option<Fault> {
    Some(Fault {
        place: at(unit, line),
        code,
    })
}

/// A unit that declares nothing.
pub(crate) fn empty(alloc: Global) -> TypedUnit
    ensures { IsBare result }
{
    TypedUnit {
        structs: List::new(alloc),
        globals: List::new(alloc),
        blocks: List::new(alloc),
        interfaces: List::new(alloc),
        prototypes: List::new(alloc),
        functions: List::new(alloc),
        local_sizes: List::new(alloc),
    }
}

/// A unit of functions.
pub(crate) fn of_functions(alloc: Global, prototypes: Prototypes, functions: Functions) -> TypedUnit
    ensures { IsBare result }
{
    TypedUnit {
        structs: List::new(alloc),
        globals: List::new(alloc),
        blocks: List::new(alloc),
        interfaces: List::new(alloc),
        prototypes,
        functions,
        local_sizes: List::new(alloc),
    }
}

/// A unit of one global variable.
pub(crate) fn of_global(
    alloc: Global,
    name: &str,
    scalar: Scalar,
    place: Place,
) -> Result<TypedUnit, Memory>
    ensures { IfOk result IsBare }
{
    let mut globals = Globals::new(alloc);
    globals.push(GlobalVar {
        name: Text::from_str(alloc, name)?,
        ty: Ty::One(scalar),
        constant: false,
        init: None,
        value: None,
        place,
    })?;
    Ok(TypedUnit {
        structs: List::new(alloc),
        globals,
        blocks: List::new(alloc),
        interfaces: List::new(alloc),
        prototypes: List::new(alloc),
        functions: List::new(alloc),
        local_sizes: List::new(alloc),
    })
}

/// The heads of functions without parameters and result, each on a line of its own.
pub(crate) fn heads(
    alloc: Global,
    unit: u32,
    first: &str,
    second: &str,
) -> Result<Prototypes, Memory> {
    let mut all = Prototypes::new(alloc);
    all.push(head(alloc, first, at(unit, 1))?)?;
    all.push(head(alloc, second, at(unit, 2))?)?;
    Ok(all)
}

fn head(alloc: Global, name: &str, place: Place) -> Result<Prototype, Memory> {
    Ok(Prototype {
        name: Text::from_str(alloc, name)?,
        result: Ty::Void,
        params: List::new(alloc),
        place,
    })
}

/// A function that calls another one on its next line.
pub(crate) fn calling(
    alloc: Global,
    prototype: u32,
    callee: u32,
    place: Place,
) -> Result<Function, Memory> {
    let call = Expr {
        ty: Ty::Void,
        place,
        kind: ExprKind::Call(callee, Exprs::new(alloc)),
    };
    let mut body = List::new(alloc);
    body.push(Stmt::Eval(call))?;
    Ok(Function {
        prototype,
        locals: List::new(alloc),
        body,
        place,
    })
}

/// A function that does nothing.
pub(crate) fn idle(alloc: Global, prototype: u32, place: Place) -> Function {
    Function {
        prototype,
        locals: List::new(alloc),
        body: List::new(alloc),
        place,
    }
}

/// One function.
pub(crate) fn alone(alloc: Global, f: Function) -> Result<Functions, Memory> {
    let mut all = Functions::new(alloc);
    all.push(f)?;
    Ok(all)
}

/// Two units.
pub(crate) fn both(alloc: Global, a: TypedUnit, b: TypedUnit) -> Result<TypedUnits, Memory>
    requires first { IsBare a }
    requires second { IsBare b }
    ensures { IfOk result AreBare }
{
    let mut units = TypedUnits::new(alloc);
    units.push(a)?;
    units.push(b)?;
    Ok(units)
}

/// What units without structs and blocks make together.
#[tactic(auto, using(crate::proofs::Known::bare_known))]
pub(crate) fn linked(alloc: Global, stage: Stage, units: TypedUnits) -> Result<Program, Refusal>
    requires { AreBare units }
{
    link(alloc, stage, units)
}

/// The first fault of units without structs and blocks.
pub(crate) fn fault_of(
    alloc: Global,
    stage: Stage,
    units: TypedUnits,
) -> Result<Option<Fault>, Memory>
    requires { AreBare units }
{
    match linked(alloc, stage, units) {
        Ok(_) => Ok(None),
        Err(Refusal::Source(fault)) => Ok(Some(fault)),
        Err(Refusal::Memory) => Err(Memory),
    }
}
