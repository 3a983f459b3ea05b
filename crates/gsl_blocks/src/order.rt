//! The order of the blocks of a function.

ghost use Rattle.std.specs.Prelude.{◌≡◌, ◌^◌, ◌<◌, [], ◌∷◌, max, length, drop, IfOk};
ghost use Rattle.gsl_blocks.specs.Around.{outside};
ghost use Rattle.gsl_blocks.specs.Blocks.{blocks_of, labels as labels_in};
ghost use Rattle.gsl_blocks.specs.Correct.{IsNesting};
ghost use Rattle.gsl_blocks.specs.Order.{run};
ghost use Rattle.gsl_blocks.specs.Reading as reading;
ghost use Rattle.gsl_blocks.specs.Targets.{once};

use crate::around::{Due, OUTSIDE};
use crate::cursor::Blocks;
use crate::runs::read_block;
use crate::stack::Stack;
use gsl_base::Memory;
use gsl_words::Instrs;
use indexmap::IndexSet;
use std::alloc::Global;

/// How many constructs of the function that begins at an instruction stand within each other, if its blocks
/// are structured (SPIR-V 1.0, 2.11): if they are one run by `specs/Order.antt`. Otherwise `None`.
pub fn nesting(alloc: Global, instrs: &Instrs, at: u32) -> Result<Option<u32>, Memory>
    requires { length instrs.now < 2 ^ 32 }
    ensures ordered { IfOk result (IsNesting (blocks_of (drop at instrs.now))) }
    ensures read { IfOk result (λ found. found ≡ reading.nesting_of (blocks_of (drop at instrs.now))) }
{
    let found = read_function(alloc, instrs, at)?;
    Ok(found)
}

/// Reads the blocks of the function that begins at an instruction.
fn read_function(alloc: Global, instrs: &Instrs, at: u32) -> Result<Option<u32>, Memory>
    requires { length instrs.now < 2 ^ 32 }
    ensures { IfOk result (λ found. found ≡ reading.nesting_of (blocks_of (drop at instrs.now))) }
{
    let labels = labels(alloc, Blocks::new(instrs, at))?;
    let blocks = Blocks::new(instrs, at);
    match labels.as_slice() {
        [] => Ok(None),
        [first, ..] => read_all(alloc, &labels, *first, blocks),
    }
}

/// The labels of blocks, each once.
fn labels(alloc: Global, blocks: Blocks<'_>) -> Result<IndexSet<u32>, Memory>
    ensures { IfOk result (λ labels. labels.keys ≡ once (labels_in blocks.entry)) }
{
    let mut blocks = blocks;
    let mut labels = IndexSet::new(alloc);
    while let Some(block) = blocks.next() {
        labels.insert(block.label)?;
    }
    Ok(labels)
}

/// The greater of two depths.
fn deeper(a: u32, b: u32) -> u32
    ensures { result ≡ max a b }
{
    if a < b { b } else { a }
}

/// How many constructs of the blocks of a function stand within each other, if they are in order.
fn read_all(
    alloc: Global,
    labels: &IndexSet<u32>,
    first: u32,
    blocks: Blocks<'_>,
) -> Result<Option<u32>, Memory>
    requires { length blocks < 2 ^ 32 }
    ensures { IfOk result (λ found. found ≡ reading.reads labels.now.keys first blocks.entry (run first outside ∷ []) 0) }
{
    let mut blocks = blocks;
    let mut stack = Stack::new(alloc);
    stack.push(Due {
        label: first,
        around: OUTSIDE,
    })?;
    let mut deepest = 0;
    while let Some(block) = blocks.next() {
        match read_block(alloc, &mut stack, labels, first, block)? {
            None => return Ok(None),
            Some(depth) => deepest = deeper(deepest, depth),
        }
    }
    if stack.is_empty() {
        Ok(Some(deepest))
    } else {
        Ok(None)
    }
}
