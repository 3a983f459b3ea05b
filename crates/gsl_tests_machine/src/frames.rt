ghost use Rattle.std.specs.Prelude.{◌^◌, ◌<◌, length, IfOk};
ghost use Rattle.gsl_valid.specs.Placed.{count_of_words};

use gsl_base::Memory;
use gsl_frames::Frames;
use gsl_ids::{Definitions, ids_defined_once};
use gsl_instr::enumerant::storage_class;
use gsl_instr::op;
use gsl_leaves::Leaves;
use gsl_words::{Instrs, Module, VERSION_1_0};
use std::alloc::Global;
use std::test::Fail;

// A function with a variable of a vector of so many words, which it loads, and of which it takes one out.
fn vectors(alloc: Global, count: u32) -> Result<Module, Memory>
    ensures { IfOk result (λ m. (length m.instrs < 2 ^ 32) × (count_of_words m < 2 ^ 32)) }
{
    let mut instrs = Instrs::new(alloc);
    instrs.put(op::TYPE_INT, &[1, 32, 0])?;
    instrs.put(op::TYPE_VECTOR, &[2, 1, count])?;
    instrs.put(op::TYPE_POINTER, &[3, storage_class::FUNCTION, 2])?;
    instrs.put(op::FUNCTION, &[9, 4, 0, 10])?;
    instrs.put(op::LABEL, &[5])?;
    instrs.put(op::VARIABLE, &[3, 6, storage_class::FUNCTION])?;
    instrs.put(op::LOAD, &[2, 7, 6])?;
    instrs.put(op::COMPOSITE_EXTRACT, &[1, 8, 7, 0])?;
    Ok(Module {
        version: VERSION_1_0,
        bound: 11,
        instrs,
    })
}

// Where an id stands, the most words that the slots of the function hold and those of its variables, or nothing where an id is defined twice.
fn frame(alloc: Global, of: &Module, id: u32) -> Result<Option<(u64, u64, u64)>, Memory>
    requires length { length of.now.instrs < 2 ^ 32 }
    requires words { count_of_words of.now < 2 ^ 32 }
{
    if ids_defined_once(alloc, of)?.is_some() {
        return Ok(None);
    }
    let definitions = Definitions::new(alloc, of)?;
    let leaves = Leaves::new(alloc, &definitions)?;
    let frames = Frames::new(alloc, &leaves)?;
    let taken = frames.frame(4);
    Ok(Some((frames.place(id), taken.most, taken.variables)))
}

// The same of a vector of so many words.
fn answer(alloc: Global, count: u32, id: u32) -> Result<Option<(u64, u64, u64)>, Memory> {
    let of = vectors(alloc, count)?;
    frame(alloc, &of, id)
}

#[test]
fn what_is_held_stands_behind_what_was_held_before(rt: HostRuntime) -> Result<(), Fail> {
    let alloc = rt.alloc();
    assert_eq!(rt; answer(alloc, 3, 8)?, Some((3, 4, 3)));
    assert_eq!(rt; answer(alloc, 2, 8)?, Some((2, 3, 2)));
    assert_eq!(rt; answer(alloc, 2, 7)?, Some((0, 3, 2)));
    Ok(())
}
