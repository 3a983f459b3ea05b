ghost use Rattle.std.specs.Prelude.{◌^◌, ◌<◌, length, IfOk};
ghost use Rattle.gsl_valid.specs.Placed.{count_of_words};

use gsl_base::Memory;
use gsl_constants::Constants;
use gsl_ids::{Definitions, ids_defined_once};
use gsl_instr::op;
use gsl_leaves::Leaves;
use gsl_words::{Instrs, Module, VERSION_1_0};
use std::alloc::Global;
use std::test::Fail;

// A vector of two words, and a constant of it and one of zeros.
fn vectors(alloc: Global, first: u32, second: u32) -> Result<Module, Memory>
    ensures { IfOk result (λ m. (length m.instrs < 2 ^ 32) × (count_of_words m < 2 ^ 32)) }
{
    let mut instrs = Instrs::new(alloc);
    instrs.put(op::TYPE_INT, &[1, 32, 0])?;
    instrs.put(op::TYPE_VECTOR, &[2, 1, 2])?;
    instrs.put(op::CONSTANT, &[1, 3, first])?;
    instrs.put(op::CONSTANT, &[1, 4, second])?;
    instrs.put(op::CONSTANT_COMPOSITE, &[2, 5, 4, 3])?;
    instrs.put(op::CONSTANT_NULL, &[2, 6])?;
    Ok(Module {
        version: VERSION_1_0,
        bound: 7,
        instrs,
    })
}

// How many words a value of the vector takes, and those of an id that is a constant of it, or nothing where an id is defined twice.
fn words(alloc: Global, of: &Module, id: u32) -> Result<Option<(u64, u32, u32)>, Memory>
    requires length { length of.now.instrs < 2 ^ 32 }
    requires words { count_of_words of.now < 2 ^ 32 }
{
    if ids_defined_once(alloc, of)?.is_some() {
        return Ok(None);
    }
    let definitions = Definitions::new(alloc, of)?;
    let leaves = Leaves::new(alloc, &definitions)?;
    let constants = Constants::new(alloc, &leaves)?;
    match constants.words(id) {
        [first, second] => Ok(Some((leaves.leaves(2), *first, *second))),
        _ => Ok(None),
    }
}

// The same of two words.
fn answer(
    alloc: Global,
    first: u32,
    second: u32,
    id: u32,
) -> Result<Option<(u64, u32, u32)>, Memory> {
    let of = vectors(alloc, first, second)?;
    words(alloc, &of, id)
}

#[test]
fn parts_of_constants_are_words_in_their_order(rt: HostRuntime) -> Result<(), Fail> {
    let alloc = rt.alloc();
    assert_eq!(rt; answer(alloc, 7, 9, 5)?, Some((2, 9, 7)));
    assert_eq!(rt; answer(alloc, 7, 9, 6)?, Some((2, 0, 0)));
    assert_eq!(rt; answer(alloc, 7, 9, 2)?, None);
    Ok(())
}
