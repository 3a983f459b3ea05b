ghost use Rattle.std.specs.Prelude.{◌^◌, ◌<◌, length, IfOk};
ghost use Rattle.gsl_valid.specs.Placed.{count_of_words};

use gsl_base::Memory;
use gsl_decorations::Decorations;
use gsl_ids::{Definitions, ids_defined_once};
use gsl_instr::enumerant::{decoration, storage_class};
use gsl_instr::op;
use gsl_valid_layouts::layouts;
use gsl_words::{Instrs, Module, VERSION_1_0};
use std::alloc::Global;
use std::test::Fail;

// A variable of a uniform block with one member at an offset.
fn block(alloc: Global, offset: u32) -> Result<Module, Memory>
    ensures { IfOk result (λ m. (length m.instrs < 2 ^ 32) × (count_of_words m < 2 ^ 32)) }
{
    let mut instrs = Instrs::new(alloc);
    instrs.put(op::MEMBER_DECORATE, &[2, 0, decoration::OFFSET, offset])?;
    instrs.put(op::TYPE_INT, &[1, 32, 0])?;
    instrs.put(op::TYPE_STRUCT, &[2, 1])?;
    instrs.put(op::TYPE_POINTER, &[3, storage_class::UNIFORM, 2])?;
    instrs.put(op::VARIABLE, &[3, 4, storage_class::UNIFORM])?;
    Ok(Module {
        version: VERSION_1_0,
        bound: 5,
        instrs,
    })
}

// The place that V8 gives of a module.
fn place(alloc: Global, of: &Module) -> Result<Option<u32>, Memory>
    requires length { length of.now.instrs < 2 ^ 32 }
    requires words { count_of_words of.now < 2 ^ 32 }
{
    if let Some(place) = ids_defined_once(alloc, of)? {
        return Ok(Some(place));
    }
    let definitions = Definitions::new(alloc, of)?;
    let decorations = Decorations::new(alloc, &definitions)?;
    layouts(alloc, &decorations)
}

// The same of the block.
fn answer(alloc: Global, offset: u32) -> Result<Option<u32>, Memory> {
    let of = block(alloc, offset)?;
    place(alloc, &of)
}

#[test]
fn a_member_at_its_offset_and_not(rt: HostRuntime) -> Result<(), Fail> {
    let alloc = rt.alloc();
    assert_eq!(rt; answer(alloc, 0)?, None);
    assert_eq!(rt; answer(alloc, 2)?, Some(14));
    Ok(())
}
