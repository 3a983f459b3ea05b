ghost use Rattle.std.specs.Prelude.{◌^◌, ◌<◌, length, IfOk};
ghost use Rattle.gsl_valid.specs.Placed.{count_of_words};

use gsl_base::Memory;
use gsl_decorations::Decorations;
use gsl_ids::{Definitions, ids_defined_once};
use gsl_instr::enumerant::decoration;
use gsl_instr::op;
use gsl_kinds::Runtimes;
use gsl_valid_blocks::{decorations, memory};
use gsl_words::{Instrs, Module, VERSION_1_0};
use std::alloc::Global;
use std::test::Fail;

// A struct with two decorations.
fn marked(alloc: Global, first: u32, second: u32) -> Result<Module, Memory>
    ensures { IfOk result (λ m. (length m.instrs < 2 ^ 32) × (count_of_words m < 2 ^ 32)) }
{
    let mut instrs = Instrs::new(alloc);
    instrs.put(op::TYPE_STRUCT, &[1])?;
    instrs.put(op::DECORATE, &[1, first])?;
    instrs.put(op::DECORATE, &[1, second])?;
    Ok(Module {
        version: VERSION_1_0,
        bound: 2,
        instrs,
    })
}

// The places that V7 and V15 give of a module, or V2.
fn places(alloc: Global, of: &Module) -> Result<(Option<u32>, Option<u32>), Memory>
    requires length { length of.now.instrs < 2 ^ 32 }
    requires words { count_of_words of.now < 2 ^ 32 }
{
    if let Some(place) = ids_defined_once(alloc, of)? {
        return Ok((Some(place), None));
    }
    let definitions = Definitions::new(alloc, of)?;
    let runtimes = Runtimes::new(alloc, &definitions)?;
    let marks = Decorations::new(alloc, &definitions)?;
    Ok((
        decorations(alloc, &marks)?,
        memory(alloc, &runtimes, &marks)?,
    ))
}

// The same of a struct with two decorations.
fn answer(alloc: Global, first: u32, second: u32) -> Result<(Option<u32>, Option<u32>), Memory> {
    let of = marked(alloc, first, second)?;
    places(alloc, &of)
}

#[test]
fn decorations_of_a_struct(rt: HostRuntime) -> Result<(), Fail> {
    let alloc = rt.alloc();
    assert_eq!(rt;
        answer(alloc, decoration::BLOCK, decoration::BUFFER_BLOCK)?,
        (None, None)
    );
    assert_eq!(rt;
        answer(alloc, decoration::BLOCK, decoration::BLOCK)?,
        (Some(10), None)
    );
    assert_eq!(rt;
        answer(alloc, decoration::OFFSET, decoration::BLOCK)?,
        (Some(7), None)
    );
    Ok(())
}
