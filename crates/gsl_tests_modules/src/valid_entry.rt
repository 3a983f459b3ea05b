ghost use Rattle.std.specs.Prelude.{◌^◌, ◌<◌, length, IfOk};
ghost use Rattle.gsl_valid.specs.Placed.{count_of_words};

use gsl_base::Memory;
use gsl_decorations::Decorations;
use gsl_ids::{Definitions, ids_defined_once};
use gsl_instr::enumerant::execution_model;
use gsl_instr::op;
use gsl_valid_entry::entry;
use gsl_words::{Instrs, Module, VERSION_1_0};
use std::alloc::Global;
use std::test::Fail;

// An entry point `main` of a stage, with no mode and no interface, and the first instruction of its function.
fn main_of(alloc: Global, model: u32) -> Result<Module, Memory>
    ensures { IfOk result (λ m. (length m.instrs < 2 ^ 32) × (count_of_words m < 2 ^ 32)) }
{
    let mut instrs = Instrs::new(alloc);
    instrs.put(op::ENTRY_POINT, &[model, 3, 0x6e69_616d, 0])?;
    instrs.put(op::TYPE_VOID, &[1])?;
    instrs.put(op::TYPE_FUNCTION, &[2, 1])?;
    instrs.put(op::FUNCTION, &[1, 3, 0, 2])?;
    Ok(Module {
        version: VERSION_1_0,
        bound: 4,
        instrs,
    })
}

// The place that V9 gives of a module, or V2.
fn place(alloc: Global, of: &Module) -> Result<Option<u32>, Memory>
    requires length { length of.now.instrs < 2 ^ 32 }
    requires words { count_of_words of.now < 2 ^ 32 }
{
    if let Some(place) = ids_defined_once(alloc, of)? {
        return Ok(Some(place));
    }
    let definitions = Definitions::new(alloc, of)?;
    let decorations = Decorations::new(alloc, &definitions)?;
    entry(alloc, &decorations)
}

// The same of an entry point of a stage.
fn answer(alloc: Global, model: u32) -> Result<Option<u32>, Memory> {
    let of = main_of(alloc, model)?;
    place(alloc, &of)
}

#[test]
fn an_entry_point_without_modes(rt: HostRuntime) -> Result<(), Fail> {
    let alloc = rt.alloc();
    assert_eq!(rt; answer(alloc, execution_model::VERTEX)?, None);
    assert_eq!(rt; answer(alloc, execution_model::GL_COMPUTE)?, Some(5));
    Ok(())
}
