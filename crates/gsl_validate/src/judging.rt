//! The rules one after the other.

ghost use Rattle.std.specs.Prelude.{ℕ, ◌≡◌, ◌^◌, ◌<◌, length, None, Err, Some, IfOk};
ghost use Rattle.gsl_words.specs.Instructions.{HasFile};
ghost use Rattle.gsl_valid.specs.Placed.{count_of_words};
ghost use Rattle.gsl_valid.specs.Valid.{Valid as IsValid, broken as least_broken};
ghost use Rattle.gsl_valid.specs.IdsDefinedOnce.{ids_defined_once as once_place};
ghost use Rattle.gsl_validate.specs.Rest as rest;

use crate::valid::Valid;
use gsl_base::Memory;
use gsl_decorations::Decorations;
use gsl_ids::{Definitions, defined_before_use, ids_defined_once};
use gsl_kinds::Runtimes;
use gsl_valid_blocks::{decorations, memory};
use gsl_valid_calls::{calls, limits};
use gsl_valid_entry::entry;
use gsl_valid_layouts::layouts;
use gsl_valid_operands::{extended, operand_types};
use gsl_valid_order::{function_shape, locality, returns, sections, structure};
use gsl_valid_types::{constants, globals, types};
use gsl_words::Module;
use std::alloc::Global;

/// Why a module is not valid.
#[derive(Debug, PartialEq, Eq, Drop)]
pub enum Invalid {
    /// The number of the least rule that it breaks, from 1 to 18, and how many words of its file stand before the first
    /// instruction that breaks that rule.
    Broken(u32, u32),
    Memory,
}

/// A module that keeps the rules V1 to V18 (SPIR-V 1.0, 2.16), or the least of them that it breaks.
pub fn validate(alloc: Global, module: Module) -> Result<Valid, Invalid>
    requires file { HasFile «module» }
    requires words { count_of_words «module» < 2 ^ 32 }
    ensures valid { IfOk result (λ valid. (valid ≡ «module») × IsValid «module») }
    ensures broken { (rule at : ℕ) → result ≡ Err (Invalid.Broken rule at) → least_broken «module» ≡ Some (rule, at) }
{
    match broken(alloc, &module) {
        Ok(None) => Ok(Valid::proved(module)),
        Ok(Some((rule, at))) => Err(Invalid::Broken(rule, at)),
        Err(Memory) => Err(Invalid::Memory),
    }
}

/// Answers a rule's number with the place of the first instruction that breaks it, where there is one.
macro_rules! unless_broken {
    ($number:literal, $place:expr) => {
        match $place {
            Some(at) => return Ok(Some(($number, at))),
            None => {}
        }
    };
}

/// The number of the least rule that a module breaks, and the place of the first instruction that breaks it.
fn broken(alloc: Global, of: &Module) -> Result<Option<(u32, u32)>, Memory>
    requires file { HasFile of.now }
    requires length { length of.now.instrs < 2 ^ 32 }
    requires words { count_of_words of.now < 2 ^ 32 }
    ensures { IfOk result (λ b. b ≡ rest.from_1 of.now) }
{
    unless_broken!(1, sections(of));
    let again = ids_defined_once(alloc, of)?;
    unless_broken!(2, again);
    let definitions = Definitions::new(alloc, of)?;
    broken_on_ids(alloc, &definitions)
}

/// The same from V3 on, for a module that keeps those before it.
fn broken_on_ids(alloc: Global, definitions: &Definitions<'_>) -> Result<Option<(u32, u32)>, Memory>
    requires file { HasFile definitions.now }
    requires once { once_place definitions.now ≡ None }
    requires length { length definitions.now.instrs < 2 ^ 32 }
    requires words { count_of_words definitions.now < 2 ^ 32 }
    ensures { IfOk result (λ b. b ≡ rest.from_3 definitions.now) }
{
    unless_broken!(3, defined_before_use(definitions));
    let type_ = types(alloc, definitions)?;
    unless_broken!(4, type_);
    let runtimes = Runtimes::new(alloc, definitions)?;
    broken_on_types(alloc, &runtimes)
}

/// The same from V5 on.
fn broken_on_types(alloc: Global, runtimes: &Runtimes<'_>) -> Result<Option<(u32, u32)>, Memory>
    requires file { HasFile runtimes.now }
    requires once { once_place runtimes.now ≡ None }
    requires length { length runtimes.now.instrs < 2 ^ 32 }
    requires words { count_of_words runtimes.now < 2 ^ 32 }
    ensures { IfOk result (λ b. b ≡ rest.from_5 runtimes.now) }
{
    unless_broken!(5, constants(runtimes));
    unless_broken!(6, globals(runtimes));
    let marks = Decorations::new(alloc, runtimes.definitions())?;
    broken_on_decorations(alloc, runtimes, &marks)
}

/// The same from V7 on.
fn broken_on_decorations(
    alloc: Global,
    runtimes: &Runtimes<'_>,
    marks: &Decorations<'_>,
) -> Result<Option<(u32, u32)>, Memory>
    requires same { marks.now ≡ runtimes.now }
    requires file { HasFile marks.now }
    requires once { once_place marks.now ≡ None }
    requires length { length marks.now.instrs < 2 ^ 32 }
    requires words { count_of_words marks.now < 2 ^ 32 }
    ensures { IfOk result (λ b. b ≡ rest.from_7 marks.now) }
{
    let decoration = decorations(alloc, marks)?;
    unless_broken!(7, decoration);
    let layout = layouts(alloc, marks)?;
    unless_broken!(8, layout);
    let begin = entry(alloc, marks)?;
    unless_broken!(9, begin);
    broken_on_functions(alloc, runtimes, marks)
}

/// The same from V10 on.
fn broken_on_functions(
    alloc: Global,
    runtimes: &Runtimes<'_>,
    marks: &Decorations<'_>,
) -> Result<Option<(u32, u32)>, Memory>
    requires same { marks.now ≡ runtimes.now }
    requires file { HasFile marks.now }
    requires once { once_place marks.now ≡ None }
    requires length { length marks.now.instrs < 2 ^ 32 }
    requires words { count_of_words marks.now < 2 ^ 32 }
    ensures { IfOk result (λ b. b ≡ rest.from_10 marks.now) }
{
    let definitions = marks.definitions();
    unless_broken!(10, function_shape(definitions));
    let call = calls(alloc, definitions)?;
    unless_broken!(11, call);
    let block = structure(alloc, definitions.module())?;
    unless_broken!(12, block);
    unless_broken!(13, locality(definitions));
    broken_on_values(alloc, runtimes, marks)
}

/// The same from V14 on.
fn broken_on_values(
    alloc: Global,
    runtimes: &Runtimes<'_>,
    marks: &Decorations<'_>,
) -> Result<Option<(u32, u32)>, Memory>
    requires same { marks.now ≡ runtimes.now }
    requires once { once_place marks.now ≡ None }
    requires length { length marks.now.instrs < 2 ^ 32 }
    requires words { count_of_words marks.now < 2 ^ 32 }
    ensures { IfOk result (λ b. b ≡ rest.from_14 marks.now) }
{
    let definitions = marks.definitions();
    unless_broken!(14, operand_types(definitions));
    let access = memory(alloc, runtimes, marks)?;
    unless_broken!(15, access);
    unless_broken!(16, returns(definitions));
    unless_broken!(17, extended(definitions));
    let limit = limits(alloc, definitions.module())?;
    unless_broken!(18, limit);
    Ok(None)
}
