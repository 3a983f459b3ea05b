ghost use Rattle.std.specs.Prelude.{◌^◌, ◌<◌, length, IfOk};
ghost use Rattle.gsl_valid.specs.Placed.{count_of_words};

use gsl_base::Memory;
use gsl_ids::{Definitions, ids_defined_once};
use gsl_instr::op;
use gsl_kinds::Runtimes;
use gsl_valid_types::{constants, types};
use gsl_words::{Instrs, Module, VERSION_1_0};
use std::alloc::Global;
use std::test::Fail;

// Two types Int of these signednesses, and a constant of a type.
fn ints(alloc: Global, first: u32, second: u32, type_: u32) -> Result<Module, Memory>
    ensures { IfOk result (λ m. (length m.instrs < 2 ^ 32) × (count_of_words m < 2 ^ 32)) }
{
    let mut instrs = Instrs::new(alloc);
    instrs.put(op::TYPE_INT, &[1, 32, first])?;
    instrs.put(op::TYPE_INT, &[2, 32, second])?;
    instrs.put(op::CONSTANT, &[type_, 3, 7])?;
    Ok(Module {
        version: VERSION_1_0,
        bound: 4,
        instrs,
    })
}

// The places that V4 and V5 give of them.
fn places(alloc: Global, of: &Module) -> Result<(Option<u32>, Option<u32>), Memory>
    requires length { length of.now.instrs < 2 ^ 32 }
    requires words { count_of_words of.now < 2 ^ 32 }
{
    if let Some(place) = ids_defined_once(alloc, of)? {
        return Ok((Some(place), None));
    }
    let definitions = Definitions::new(alloc, of)?;
    let runtimes = Runtimes::new(alloc, &definitions)?;
    Ok((types(alloc, &definitions)?, constants(&runtimes)))
}

// The same of two types Int and a constant.
fn answer(
    alloc: Global,
    first: u32,
    second: u32,
    type_: u32,
) -> Result<(Option<u32>, Option<u32>), Memory> {
    let of = ints(alloc, first, second, type_)?;
    places(alloc, &of)
}

#[test]
fn types_and_constants(rt: HostRuntime) -> Result<(), Fail> {
    let alloc = rt.alloc();
    assert_eq!(rt; answer(alloc, 0, 1, 2)?, (None, None));
    assert_eq!(rt; answer(alloc, 1, 1, 2)?, (Some(9), None));
    assert_eq!(rt; answer(alloc, 0, 2, 3)?, (Some(9), Some(13)));
    Ok(())
}
