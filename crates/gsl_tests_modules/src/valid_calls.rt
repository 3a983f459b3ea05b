ghost use Rattle.std.specs.Prelude.{◌^◌, ◌<◌, length, IfOk};
ghost use Rattle.gsl_valid.specs.Placed.{count_of_words};

use gsl_base::Memory;
use gsl_ids::{Definitions, ids_defined_once};
use gsl_instr::op;
use gsl_valid_calls::{calls, limits};
use gsl_words::{Instrs, Module, VERSION_1_0};
use std::alloc::Global;
use std::test::Fail;

// Two functions, of which the first calls one.
fn functions(alloc: Global, callee: u32) -> Result<Module, Memory>
    ensures { IfOk result (λ m. (length m.instrs < 2 ^ 32) × (count_of_words m < 2 ^ 32)) }
{
    let mut instrs = Instrs::new(alloc);
    instrs.put(op::TYPE_VOID, &[1])?;
    instrs.put(op::TYPE_FUNCTION, &[2, 1])?;
    instrs.put(op::FUNCTION, &[1, 3, 0, 2])?;
    instrs.put(op::LABEL, &[4])?;
    instrs.put(op::FUNCTION_CALL, &[1, 5, callee])?;
    instrs.put(op::RETURN, &[])?;
    instrs.put(op::FUNCTION_END, &[])?;
    instrs.put(op::FUNCTION, &[1, 6, 0, 2])?;
    instrs.put(op::LABEL, &[7])?;
    instrs.put(op::RETURN, &[])?;
    instrs.put(op::FUNCTION_END, &[])?;
    Ok(Module {
        version: VERSION_1_0,
        bound: 8,
        instrs,
    })
}

// The places that V11 and V18 give of a module.
fn places(alloc: Global, of: &Module) -> Result<(Option<u32>, Option<u32>), Memory>
    requires length { length of.now.instrs < 2 ^ 32 }
    requires words { count_of_words of.now < 2 ^ 32 }
{
    if let Some(place) = ids_defined_once(alloc, of)? {
        return Ok((Some(place), None));
    }
    let definitions = Definitions::new(alloc, of)?;
    let called = calls(alloc, &definitions)?;
    Ok((called, limits(alloc, of)?))
}

// The same of the two functions.
fn answer(alloc: Global, callee: u32) -> Result<(Option<u32>, Option<u32>), Memory> {
    let of = functions(alloc, callee)?;
    places(alloc, &of)
}

#[test]
fn a_call_of_another_and_of_itself(rt: HostRuntime) -> Result<(), Fail> {
    let alloc = rt.alloc();
    assert_eq!(rt; answer(alloc, 6)?, (None, None));
    assert_eq!(rt; answer(alloc, 3)?, (Some(17), None));
    Ok(())
}
