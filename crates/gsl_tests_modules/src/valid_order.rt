ghost use Rattle.std.specs.Prelude.{◌^◌, ◌<◌, length, IfOk};
ghost use Rattle.gsl_valid.specs.Placed.{count_of_words};

use gsl_base::Memory;
use gsl_instr::op;
use gsl_valid_order::structure;
use gsl_words::{Instrs, Module, VERSION_1_0};
use std::alloc::Global;
use std::test::Fail;

// A function of one block, which goes on to a label.
fn function(alloc: Global, next: u32) -> Result<Module, Memory>
    ensures { IfOk result (λ m. (length m.instrs < 2 ^ 32) × (count_of_words m < 2 ^ 32)) }
{
    let mut instrs = Instrs::new(alloc);
    instrs.put(op::FUNCTION, &[1, 2, 0, 3])?;
    instrs.put(op::LABEL, &[4])?;
    instrs.put(op::BRANCH, &[next])?;
    instrs.put(op::LABEL, &[5])?;
    instrs.put(op::RETURN, &[])?;
    instrs.put(op::FUNCTION_END, &[])?;
    Ok(Module {
        version: VERSION_1_0,
        bound: 6,
        instrs,
    })
}

// The place that V12 gives of it.
fn answer(alloc: Global, next: u32) -> Result<Option<u32>, Memory> {
    let of = function(alloc, next)?;
    structure(alloc, &of)
}

#[test]
fn blocks_in_order_and_not(rt: HostRuntime) -> Result<(), Fail> {
    let alloc = rt.alloc();
    assert_eq!(rt; answer(alloc, 5)?, None);
    assert_eq!(rt; answer(alloc, 4)?, Some(5));
    Ok(())
}
