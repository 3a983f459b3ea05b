ghost use Rattle.std.specs.Prelude.{◌<◌, ◌^◌};

use gsl_base::Memory;
use gsl_blocks::nesting;
use gsl_instr::op;
use gsl_words::Instrs;
use std::alloc::Global;
use std::test::Fail;

// The code of a function: opcodes with their operands.
fn code(alloc: Global, rows: &[(u16, &[u32])]) -> Result<Instrs, Memory> {
    let mut instrs = Instrs::new(alloc);
    for (op, args) in rows {
        instrs.put(*op, *args)?;
    }
    Ok(instrs)
}

// One block that returns.
fn straight(alloc: Global) -> Result<Instrs, Memory> {
    code(
        alloc,
        &[
            (op::FUNCTION, &[2, 1, 0, 3]),
            (op::LABEL, &[4]),
            (op::RETURN, &[]),
            (op::FUNCTION_END, &[]),
        ],
    )
}

// for (;; step) { if (c) break; }
fn looping(alloc: Global) -> Result<Instrs, Memory> {
    code(
        alloc,
        &[
            (op::LABEL, &[1]),
            (op::BRANCH, &[2]),
            (op::LABEL, &[2]),
            (op::LOOP_MERGE, &[9, 8, 0]),
            (op::BRANCH, &[3]),
            (op::LABEL, &[3]),
            (op::SELECTION_MERGE, &[4, 0]),
            (op::BRANCH_CONDITIONAL, &[20, 9, 4]),
            (op::LABEL, &[4]),
            (op::BRANCH, &[8]),
            (op::LABEL, &[8]),
            (op::BRANCH, &[2]),
            (op::LABEL, &[9]),
            (op::RETURN, &[]),
            (op::FUNCTION_END, &[]),
        ],
    )
}

// A loop whose continue part has this end.
fn continued(alloc: Global, end: u16, targets: &[u32]) -> Result<Instrs, Memory> {
    code(
        alloc,
        &[
            (op::LABEL, &[1]),
            (op::BRANCH, &[2]),
            (op::LABEL, &[2]),
            (op::LOOP_MERGE, &[4, 3, 0]),
            (op::BRANCH, &[5]),
            (op::LABEL, &[5]),
            (op::BRANCH, &[3]),
            (op::LABEL, &[3]),
            (end, targets),
            (op::LABEL, &[4]),
            (op::KILL, &[]),
            (op::FUNCTION_END, &[]),
        ],
    )
}

// A switch with the default 3 and these literals and labels, whose blocks stand as 2, 3, 4: the first falls through.
fn switching(alloc: Global, targets: &[u32]) -> Result<Instrs, Memory> {
    code(
        alloc,
        &[
            (op::LABEL, &[1]),
            (op::SELECTION_MERGE, &[9, 0]),
            (op::SWITCH, targets),
            (op::LABEL, &[2]),
            (op::BRANCH, &[3]),
            (op::LABEL, &[3]),
            (op::BRANCH, &[9]),
            (op::LABEL, &[4]),
            (op::RETURN, &[]),
            (op::LABEL, &[9]),
            (op::RETURN_VALUE, &[20]),
            (op::FUNCTION_END, &[]),
        ],
    )
}

// The blocks of selections within each other, so many: each opened, and then each closed.
fn put_nested(instrs: &mut Instrs, depth: u32) -> Result<(), Memory>
    requires { depth < 2 ^ 24 }
{
    for k in 0..depth {
        instrs.put(op::LABEL, &[k])?;
        instrs.put(op::SELECTION_MERGE, &[2 * depth - k, 0])?;
        instrs.put(op::BRANCH_CONDITIONAL, &[0, k + 1, 2 * depth - k])?;
    }
    for k in depth..2 * depth {
        instrs.put(op::LABEL, &[k])?;
        instrs.put(op::BRANCH, &[k + 1])?;
    }
    instrs.put(op::LABEL, &[2 * depth])?;
    instrs.put(op::RETURN, &[])
}

fn nested(alloc: Global, depth: u32) -> Result<Instrs, Memory> {
    if depth >= 1 << 24 {
        return Err(Memory);
    }
    let mut instrs = Instrs::new(alloc);
    put_nested(&mut instrs, depth)?;
    Ok(instrs)
}

// What is answered of the function that begins at an instruction of some code.
fn answer(alloc: Global, instrs: Result<Instrs, Memory>, at: u32) -> Result<Option<u32>, Memory> {
    let instrs = instrs?;
    if instrs.len() >= 1 << 30 {
        return Err(Memory);
    }
    nesting(alloc, &instrs, at)
}

#[test]
fn one_block_is_in_order(rt: HostRuntime) -> Result<(), Fail> {
    let alloc = rt.alloc();
    assert_eq!(rt; answer(alloc, straight(alloc), 0)?, Some(0));
    // behind its FunctionEnd there is no block
    assert_eq!(rt; answer(alloc, straight(alloc), 4)?, None);
    Ok(())
}

#[test]
fn a_selection_in_a_loop_is_two_deep(rt: HostRuntime) -> Result<(), Fail> {
    let alloc = rt.alloc();
    assert_eq!(rt; answer(alloc, looping(alloc), 0)?, Some(2));
    // from the loop's own label on, that is the first one
    assert_eq!(rt; answer(alloc, looping(alloc), 2)?, None);
    Ok(())
}

#[test]
fn a_continue_part_goes_back_or_behind(rt: HostRuntime) -> Result<(), Fail> {
    let alloc = rt.alloc();
    let rows: [(u16, &[u32], Option<u32>); 4] = [
        (op::BRANCH, &[2], Some(1)),
        (op::BRANCH_CONDITIONAL, &[20, 4, 2], Some(1)),
        (op::BRANCH_CONDITIONAL, &[20, 4, 5], None),
        (op::RETURN, &[], None),
    ];
    for (end, targets, found) in rows {
        assert_eq!(rt; answer(alloc, continued(alloc, end, targets), 0)?, found);
    }
    Ok(())
}

#[test]
fn cases_stand_in_the_order_of_their_mention(rt: HostRuntime) -> Result<(), Fail> {
    let alloc = rt.alloc();
    let rows: [(&[u32], Option<u32>); 4] = [
        (&[20, 3, 10, 2, 11, 4, 12, 2], Some(1)),
        (&[20, 3, 11, 4, 10, 2], None),
        (&[20, 3, 10, 2, 10, 4], None),
        (&[20, 3, 10, 2], None),
    ];
    for (targets, found) in rows {
        assert_eq!(rt; answer(alloc, switching(alloc, targets), 0)?, found);
    }
    Ok(())
}

#[test]
fn a_million_selections_within_each_other(rt: HostRuntime) -> Result<(), Fail> {
    let alloc = rt.alloc();
    assert_eq!(rt;
        answer(alloc, nested(alloc, 1_000_000), 0)?,
        Some(1_000_000)
    );
    Ok(())
}
