//! Chains, loads, stores and lengths.

ghost use Rattle.std.specs.Prelude.{◌≡◌, ◌^◌, ◌<◌, ◌&&◌, length, IfOk};
ghost use Rattle.gsl_kinds.specs.Seen.{shape_seen};
ghost use Rattle.gsl_valid.specs.Kinds as kinds;
ghost use Rattle.gsl_valid.specs.MemoryRules as spec;
ghost use Rattle.gsl_valid.specs.Placed.{count_of_words};
ghost use Rattle.gsl_valid.specs.Types as types;
ghost use Rattle.gsl_valid.specs.CallRules as calls;
ghost use Rattle.gsl_valid_blocks.specs.Seen.{target_seen, target_if_seen};

use crate::chain::{is_base, leads_to};
use crate::guards::Guards;
use crate::storage::{is_in_buffer, is_variable_of_storage};
use crate::target::{Target, target_at, target_in};
use gsl_base::Memory;
use gsl_decorations::Decorations;
use gsl_ids::{Definitions, Test, first_failed};
use gsl_instr::enumerant::storage_class;
use gsl_instr::{Instruction, read};
use gsl_kinds::{Runtimes, Shape, has_type, is_ints, kind_if, shape_of};
use std::alloc::Global;
use std::marker::Model;

/// The place of the first instruction that breaks V15: a chain, a load, a store or an ArrayLength that may not be.
pub fn memory(
    alloc: Global,
    runtimes: &Runtimes<'_>,
    decorations: &Decorations<'_>,
) -> Result<Option<u32>, Memory>
    requires same { decorations.now ≡ runtimes.now }
    requires length { length runtimes.now.instrs < 2 ^ 32 }
    requires words { count_of_words runtimes.now < 2 ^ 32 }
    ensures { IfOk result (λ place. place ≡ spec.memory runtimes.now) }
{
    let guards = Guards::new(alloc, decorations)?;
    let place = first_unkept(runtimes, &guards);
    Ok(place)
}

/// The same, where it is known which chains lead through which members.
fn first_unkept(runtimes: &Runtimes<'_>, guards: &Guards<'_>) -> Option<u32>
    requires same { guards.now ≡ runtimes.now }
    requires length { length runtimes.now.instrs < 2 ^ 32 }
    requires words { count_of_words runtimes.now < 2 ^ 32 }
    ensures { result ≡ spec.memory runtimes.now }
{
    let mut test = MemoryTest { runtimes, guards };
    first_failed(&mut test, runtimes.definitions().module())
}

/// The test of V15. Contracts see the module.
#[derive(Drop)]
pub(crate) struct MemoryTest<'a> {
    runtimes: &'a Runtimes<'a>,
    guards: &'a Guards<'a>,
}

impl<'a> Model for MemoryTest<'a> {
    ghost use Rattle.std.specs.Prelude.{◌≡◌};
    ghost use Rattle.gsl_words.specs.declared.module.Module.{Module as OneModule};

    ghost Value = { OneModule };

    ghost view = { λ test. test.runtimes.now };

    ghost invariant = { λ test. test.guards.now ≡ test.runtimes.now };
}

impl<'a> MemoryTest<'a> {
    ghost use Rattle.gsl_valid.specs.ConstantRules as constants;

    /// The definitions of the module.
    fn definitions(&self) -> &'a Definitions<'a>
        ensures { result.now ≡ self.now }
    {
        self.runtimes.definitions()
    }

    /// The chains of the module.
    fn guards(&self) -> &'a Guards<'a>
        ensures { result.now ≡ self.now }
    {
        self.guards
    }

    /// Whether an array without length is in a type.
    fn has_runtime(&self, type_: u32) -> bool
        ensures { result ≡ constants.has_runtime self.now type_ }
    {
        self.runtimes.has_runtime(type_)
    }
}

impl<'a> Test for MemoryTest<'a> {
    ghost use Rattle.std.specs.Prelude.{[]};
    ghost use Rattle.gsl_valid.specs.MemoryRules.{memory_kept};

    ghost passes = { λ m at i. memory_kept m [] i };

    ghost behind = { λ m at i. m };

    fn test(&mut self, _at: u32, op: u16, args: &[u32]) -> bool {
        match read(op, args) {
            Some(instruction) => is_kept(self, instruction),
            None => true,
        }
    }
}

/// Whether an instruction, if it is a chain, a load, a store or a length, is one that may be.
fn is_kept(test: &MemoryTest<'_>, instruction: Instruction<'_>) -> bool
    ensures { result ≡ spec.memory_of test.now instruction.entry }
{
    match instruction {
        Instruction::Load { type_, pointer, .. } => may_load(test, type_, pointer),
        Instruction::Store { pointer, value } => may_store(test, pointer, value),
        Instruction::AccessChain {
            type_,
            base,
            indexes,
            ..
        } => is_chain(test.definitions(), type_, base, indexes.as_slice()),
        Instruction::ArrayLength {
            type_,
            pointer,
            member,
            ..
        } => is_length_of(test.guards().decorations(), type_, pointer, member),
        _ => true,
    }
}

/// Whether a value of a type may be loaded through a pointer.
fn may_load(test: &MemoryTest<'_>, type_: u32, pointer: u32) -> bool
    ensures { result ≡ spec.may_load test.now type_ pointer (calls.target test.now pointer) }
{
    match target_at(test.definitions(), pointer) {
        Some(target) => {
            target.pointee == type_
                && is_moved(test, target)
                && !test.guards().is_unreadable(pointer)
        }
        None => false,
    }
}

/// Whether what is pointed to may be read or written: no array without length, and through a block's pointer an Int or a vector of Int.
fn is_moved(test: &MemoryTest<'_>, target: Target) -> bool
    ensures { result ≡ spec.is_moved test.now (target_seen target) }
{
    if is_block_class(target.class) {
        is_ints(test.definitions(), target.pointee)
    } else {
        !test.has_runtime(target.pointee)
    }
}

/// Whether a class is that of a block's variable.
fn is_block_class(class: u32) -> bool
    ensures { result ≡ types.is_block_class class }
{
    class == storage_class::UNIFORM
        || class == storage_class::STORAGE_BUFFER
        || class == storage_class::PUSH_CONSTANT
}

/// Whether a value may be stored through a pointer.
fn may_store(test: &MemoryTest<'_>, pointer: u32, value: u32) -> bool
    ensures { result ≡ spec.may_store test.now pointer value (calls.target test.now pointer) }
{
    match target_at(test.definitions(), pointer) {
        Some(target) => {
            has_type(test.definitions(), target.pointee, value)
                && is_moved(test, target)
                && is_writable(test.guards(), target.class, pointer)
        }
        None => false,
    }
}

/// Whether a pointer of a class may be stored through.
fn is_writable(guards: &Guards<'_>, class: u32, pointer: u32) -> bool
    ensures { result ≡ spec.is_writable guards.now class (types.defined_as guards.now pointer) }
{
    if class == storage_class::UNIFORM || class == storage_class::STORAGE_BUFFER {
        is_in_buffer(guards.decorations(), pointer) && !guards.is_unwritable(pointer)
    } else {
        matches!(
            class,
            storage_class::OUTPUT | storage_class::PRIVATE | storage_class::FUNCTION
        )
    }
}

/// Whether indexes lead from a variable or a parameter to what a pointer type of its class points to.
fn is_chain(definitions: &Definitions<'_>, type_: u32, base: u32, indexes: &[u32]) -> bool
    ensures { result ≡ (spec.is_base (kinds.kind (types.defined_as definitions.now base)) && spec.leads_to definitions.now (calls.target definitions.now base) indexes.now (types.target_of (types.defined_as definitions.now type_))) }
{
    is_base(kind_if(definitions.get(base)))
        && leads_to(
            definitions,
            target_at(definitions, base),
            indexes,
            target_in(shape_of(definitions, type_)),
        )
}

/// Whether a type is that of the length of a member of a storage block.
fn is_length_of(decorations: &Decorations<'_>, type_: u32, pointer: u32, member: u32) -> bool
    ensures { result ≡ spec.is_length_of decorations.now type_ pointer member }
{
    let definitions = decorations.definitions();
    is_uint(shape_of(definitions, type_))
        && is_variable_of_storage(decorations, pointer)
        && grows(definitions, member, target_at(definitions, pointer))
}

/// Whether a type is `uint`.
fn is_uint(shape: Shape<'_>) -> bool
    ensures { result ≡ types.is_int_of 0 (shape_seen shape.entry) }
{
    match shape {
        Shape::Int { signedness } => signedness == 0,
        _ => false,
    }
}

/// Whether the struct that is pointed to has an array without length as its last member, and it has this number.
fn grows(definitions: &Definitions<'_>, member: u32, target: Option<Target>) -> bool
    ensures { result ≡ spec.grows definitions.now member (target_if_seen target) }
{
    match target {
        Some(target) => grows_at(definitions, member, shape_of(definitions, target.pointee)),
        None => false,
    }
}

/// The same of a type.
fn grows_at(definitions: &Definitions<'_>, member: u32, shape: Shape<'_>) -> bool
    ensures { result ≡ spec.grows_at definitions.now member (shape_seen shape.entry) }
{
    match shape {
        Shape::Struct { members, .. } => is_last_runtime(definitions, member, members),
        _ => false,
    }
}

/// Whether the last of these members is an array without length, and has this number.
fn is_last_runtime(definitions: &Definitions<'_>, member: u32, members: &[u32]) -> bool
    ensures { result ≡ spec.is_last_runtime definitions.now member members.now }
{
    members.len() == member as usize + 1
        && is_runtime_at(shape_of(definitions, members[member as usize]))
}

/// Whether a type is an array without length.
fn is_runtime_at(shape: Shape<'_>) -> bool
    ensures { result ≡ spec.is_runtime_at (shape_seen shape.entry) }
{
    matches!(shape, Shape::RuntimeArray { .. })
}
