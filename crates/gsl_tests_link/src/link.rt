ghost use Rattle.std.specs.Prelude.{IfOk};
ghost use Rattle.gsl_tests_link.specs.Bare.{IsBare};

use crate::units::{
    alone, at, both, calling, empty, fault, fault_of, heads, idle, linked, of_functions, of_global,
};
use gsl_base::{Code, Memory, Stage};
use gsl_tree::{TypedUnit, TypedUnits};
use gsl_types::Scalar;
use std::alloc::Global;
use std::test::Fail;

/// `void main() { f(); }` behind the heads of `f` and `main`.
fn caller(alloc: Global) -> Result<TypedUnit, Memory>
    ensures { IfOk result IsBare }
{
    let f = calling(alloc, 1, 0, at(0, 3))?;
    Ok(of_functions(alloc, heads(alloc, 0, "f", "main")?, alone(alloc, f)?))
}

/// A definition of `f`, which does nothing, behind the heads of `g` and `f`.
fn callee(alloc: Global) -> Result<TypedUnit, Memory>
    ensures { IfOk result IsBare }
{
    Ok(of_functions(
        alloc,
        heads(alloc, 1, "g", "f")?,
        alone(alloc, idle(alloc, 1, at(1, 3)))?,
    ))
}

/// A definition of `f`, which calls itself.
fn round(alloc: Global) -> Result<TypedUnit, Memory>
    ensures { IfOk result IsBare }
{
    let f = calling(alloc, 1, 1, at(1, 3))?;
    Ok(of_functions(alloc, heads(alloc, 1, "g", "f")?, alone(alloc, f)?))
}

#[test]
fn a_call_across_units_is_linked(rt: HostRuntime) -> Result<(), Fail> {
    let alloc = rt.alloc();
    let units = both(alloc, caller(alloc)?, callee(alloc)?)?;
    let p = linked(alloc, Stage::Vertex, units)?;
    assert_eq!(rt; p.prototypes.len(), 3);
    assert_eq!(rt; p.functions.len(), 2);
    assert_eq!(rt; p.main, 0);
    assert_eq!(rt; p.functions[1].prototype, 0);
    Ok(())
}

#[test]
fn variables_of_one_name_agree(rt: HostRuntime) -> Result<(), Fail> {
    let alloc = rt.alloc();
    let a = of_global(alloc, "x", Scalar::Int, at(0, 1))?;
    let b = of_global(alloc, "x", Scalar::Uint, at(1, 7))?;
    let found = fault_of(alloc, Stage::Vertex, both(alloc, a, b)?)?;
    assert_eq!(rt; found, fault(Code::E0804, 1, 7));
    Ok(())
}

#[test]
fn a_function_has_one_definition(rt: HostRuntime) -> Result<(), Fail> {
    let alloc = rt.alloc();
    let units = both(alloc, callee(alloc)?, callee(alloc)?)?;
    let found = fault_of(alloc, Stage::Vertex, units)?;
    assert_eq!(rt; found, fault(Code::E0802, 1, 3));
    Ok(())
}

#[test]
fn there_is_a_main(rt: HostRuntime) -> Result<(), Fail> {
    let alloc = rt.alloc();
    let found = fault_of(alloc, Stage::Vertex, TypedUnits::new(alloc))?;
    assert_eq!(rt; found, fault(Code::E0801, 0, 1));
    Ok(())
}

#[test]
fn what_is_called_is_defined(rt: HostRuntime) -> Result<(), Fail> {
    let alloc = rt.alloc();
    let units = both(alloc, caller(alloc)?, empty(alloc))?;
    let found = fault_of(alloc, Stage::Vertex, units)?;
    assert_eq!(rt; found, fault(Code::E0803, 0, 3));
    Ok(())
}

#[test]
fn no_function_reaches_itself(rt: HostRuntime) -> Result<(), Fail> {
    let alloc = rt.alloc();
    let units = both(alloc, caller(alloc)?, round(alloc)?)?;
    let found = fault_of(alloc, Stage::Vertex, units)?;
    assert_eq!(rt; found, fault(Code::E0805, 1, 3));
    Ok(())
}

#[test]
fn a_work_group_has_a_size(rt: HostRuntime) -> Result<(), Fail> {
    let alloc = rt.alloc();
    let units = both(alloc, caller(alloc)?, callee(alloc)?)?;
    let found = fault_of(alloc, Stage::Compute, units)?;
    assert_eq!(rt; found, fault(Code::E0806, 0, 1));
    Ok(())
}
