ghost use Rattle.std.specs.Prelude.{◌^◌, ◌<◌, length, IfOk};
ghost use Rattle.gsl_valid.specs.Placed.{count_of_words};

use gsl_base::Memory;
use gsl_ids::{count_of_words, ids_defined_once};
use gsl_instr::op;
use gsl_words::{Instrs, Module, VERSION_1_0};
use std::alloc::Global;
use std::test::Fail;

// Two labels with a Return between them.
fn labels(alloc: Global, bound: u32, first: u32, second: u32) -> Result<Module, Memory>
    ensures { IfOk result (λ m. (length m.instrs < 2 ^ 32) × (count_of_words m < 2 ^ 32)) }
{
    let mut instrs = Instrs::new(alloc);
    instrs.put(op::LABEL, &[first])?;
    instrs.put(op::RETURN, &[])?;
    instrs.put(op::LABEL, &[second])?;
    Ok(Module {
        version: VERSION_1_0,
        bound,
        instrs,
    })
}

// The place that is answered of them.
fn answer(alloc: Global, bound: u32, first: u32, second: u32) -> Result<Option<u32>, Memory> {
    let of = labels(alloc, bound, first, second)?;
    ids_defined_once(alloc, &of)
}

#[test]
fn ids_below_the_bound_that_differ(rt: HostRuntime) -> Result<(), Fail> {
    assert_eq!(rt; answer(rt.alloc(), 3, 1, 2)?, None);
    Ok(())
}

#[test]
fn an_id_again_at_the_bound_or_zero(rt: HostRuntime) -> Result<(), Fail> {
    let alloc = rt.alloc();
    let rows: [(u32, u32, u32, u32); 3] = [(3, 1, 1, 8), (2, 1, 2, 8), (3, 0, 2, 5)];
    for (bound, first, second, place) in rows {
        assert_eq!(rt; answer(alloc, bound, first, second)?, Some(place));
    }
    Ok(())
}
