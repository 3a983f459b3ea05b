//! A plain slow program for what a module does: it runs the instructions on the bytes of the buffers.

ghost use Rattle.std.specs.Prelude.{◌≡◌, ◌+◌, ◌*◌, ◌^◌, ◌<◌, ◌≤◌, List, ℕ, length, drop, slice_index, OnOk, IfOk, option_map, option_copied};
ghost use Rattle.gsl_cmd.specs.Sections.{begin_with, has_at, operand, members_of, is_int};
ghost use Rattle.gsl_slow.specs.States.{pointer_of, value_of, ids_of, walked_outcome, word_in, pointer_in, buffer_place, state_of, action_in, stepped_outcome, written_outcome, stopped_outcome, IsOutcome};
ghost use Rattle.gsl_words.specs.Words as words;
ghost use Rattle.gsl_base.specs.declared.input.Buffer.{Buffer};
ghost use Rattle.gsl_words.specs.declared.module.Instr.{Instr};
ghost use Rattle.gsl_cmd.specs.Machine.{Pointer, globals, Outcome, on, into_struct};
ghost use Rattle.gsl_cmd.specs.Machine as meaning;

use crate::shader::{place_of, put_word, word_at, word_sum};
use gsl_base::{Buffer, Bytes, Input, List, Memory, Output, Outs};
use gsl_instr::enumerant::decoration;
use gsl_instr::op;
use gsl_words::{Instrs, Module};
use std::alloc::Global;
use std::mem;

/// A pointer: the variable, how many bytes from its start, and the type of what is there.
#[derive(Clone, Copy)]
pub struct SlowPointer {
    pub variable: u32,
    pub offset: u32,
    pub pointee: u32,
}

/// What an id stands for.
#[derive(Clone, Copy)]
pub enum SlowValue {
    Word(u32),
    Points(SlowPointer),
}

/// A value that an instruction gave to an id.
#[derive(Clone, Copy)]
pub struct Entry {
    pub id: u32,
    pub value: SlowValue,
}

/// Where indexes led.
#[derive(Clone, Copy)]
pub enum Walked {
    Reached(SlowPointer),
    Strayed,
    Stuck,
}

/// Where a run stands in the instructions, the values that were given to ids, the last one first, and the
/// buffers.
#[derive(Drop)]
pub struct SlowMachine {
    pub at: usize,
    pub entries: Vec<Entry>,
    pub buffers: Vec<Buffer>,
}

/// An instruction with its operands.
#[derive(Clone, Copy)]
pub enum SlowAction<'a> {
    Label,
    AccessChain(u32, u32, &'a [u32]),
    Load(u32, u32),
    Add(u32, u32, u32),
    Store(u32, u32),
    Return,
    Unknown,
}

/// What an instruction came to.
#[derive(Clone, Copy, Debug, PartialEq, Eq)]
pub enum Stepped {
    Going,
    Ended,
    Strayed,
    Stuck,
}

/// What a run came to, with the place at which it strayed.
#[derive(Clone, Copy, Debug, PartialEq, Eq)]
pub enum Stopped {
    Going,
    Ended,
    Strayed(u64),
    Stuck,
}

/// What a module comes to on an input.
#[derive(Debug, Drop)]
pub enum SlowRun {
    Going,
    Ended(Output),
    Strayed(u64),
    Stuck,
}

/// An operand, or zero past the end.
fn operand_at(args: &[u32], place: usize) -> u32
    ensures { result ≡ slice_index args.now place }
{
    if place < args.len() { args[place] } else { 0 }
}

/// Whether operands begin with these words.
fn begins_with(words: &[u32], args: &[u32]) -> bool
    ensures { result ≡ begin_with words.now args.now }
{
    match words {
        [] => true,
        [word, words @ ..] => match args {
            [] => false,
            [arg, args @ ..] => *arg == *word && begins_with(words, args),
        },
    }
}

/// An operand of the first instruction of an opcode whose operands begin with these words.
fn prefixed(instrs: &Instrs, opcode: u16, prefix: &[u32], place: usize) -> Option<u32>
    requires { length instrs.now < 2 ^ 32 }
    ensures { result ≡ operand place opcode (begin_with prefix.now) instrs.now }
{
    for i in 0..instrs.len() {
        let args = instrs.args(i as u32);
        if instrs.op(i as u32) == opcode && begins_with(prefix, args) {
            return Some(operand_at(args, place));
        }
    }
    None
}

/// An operand of the first instruction of an opcode that has a word at a place among its operands.
fn placed(instrs: &Instrs, opcode: u16, at: usize, word: u32, place: usize) -> Option<u32>
    requires { length instrs.now < 2 ^ 32 }
    ensures { result ≡ operand place opcode (has_at at word) instrs.now }
{
    for i in 0..instrs.len() {
        let args = instrs.args(i as u32);
        if instrs.op(i as u32) == opcode && operand_at(args, at) == word {
            return Some(operand_at(args, place));
        }
    }
    None
}

/// The types of a struct's members.
fn members(instrs: &Instrs, of: u32) -> Option<&[u32]>
    requires { length instrs.now < 2 ^ 32 }
    ensures { option_copied result ≡ members_of instrs.now of }
{
    for i in 0..instrs.len() {
        let args = instrs.args(i as u32);
        if instrs.op(i as u32) == op::TYPE_STRUCT && operand_at(args, 0) == of {
            return Some(behind_first(args));
        }
    }
    None
}

/// All operands but the first.
fn behind_first(args: &[u32]) -> &[u32]
    ensures { result.now ≡ drop 1 args.now }
{
    match args {
        [] => args,
        [_, rest @ ..] => rest,
    }
}

/// What a constant or a variable of the module stands for.
fn global(instrs: &Instrs, id: u32) -> Option<SlowValue>
    requires { length instrs.now < 2 ^ 32 }
    ensures { option_map value_of result ≡ globals instrs.now id }
{
    if let Some(word) = placed(instrs, op::CONSTANT, 1, id, 2) {
        return Some(SlowValue::Word(word));
    }
    match placed(instrs, op::VARIABLE, 1, id, 0) {
        None => None,
        Some(pointer) => match placed(instrs, op::TYPE_POINTER, 0, pointer, 2) {
            None => None,
            Some(pointee) => Some(SlowValue::Points(SlowPointer {
                variable: id,
                offset: 0,
                pointee,
            })),
        },
    }
}

/// What an id stands for, where these values were given, the last one first.
fn value(instrs: &Instrs, entries: &[Entry], id: u32) -> Option<SlowValue>
    requires { length instrs.now < 2 ^ 32 }
    ensures { option_map value_of result ≡ ids_of instrs.now entries.now id }
{
    match entries {
        [] => global(instrs, id),
        [entry, rest @ ..] => {
            if id == entry.id {
                Some(entry.value)
            } else {
                value(instrs, rest, id)
            }
        }
    }
}

/// The word that an id stands for.
fn word(instrs: &Instrs, entries: &[Entry], id: u32) -> Option<u32>
    requires { length instrs.now < 2 ^ 32 }
    ensures { result ≡ word_in (ids_of instrs.now entries.now id) }
{
    match value(instrs, entries, id) {
        None => None,
        Some(SlowValue::Word(word)) => Some(word),
        Some(SlowValue::Points(_)) => None,
    }
}

/// The pointer that an id stands for.
fn pointer(instrs: &Instrs, entries: &[Entry], id: u32) -> Option<SlowPointer>
    requires { length instrs.now < 2 ^ 32 }
    ensures { option_map pointer_of result ≡ pointer_in (ids_of instrs.now entries.now id) }
{
    match value(instrs, entries, id) {
        None => None,
        Some(SlowValue::Word(_)) => None,
        Some(SlowValue::Points(to)) => Some(to),
    }
}

/// The sum of two offsets. Where it passes 32 bits, the slow program gives up as for want of memory.
fn offset_sum(a: u32, b: u32) -> Result<u32, Memory>
    ensures { IfOk result (λ sum. sum ≡ a + b) }
{
    match a.checked_add(b) {
        None => Err(Memory),
        Some(sum) => Ok(sum),
    }
}

/// The member of a struct behind a pointer.
fn member(instrs: &Instrs, from: SlowPointer, index: u32) -> Result<Walked, Memory>
    requires { length instrs.now < 2 ^ 32 }
    ensures { IfOk result (λ led. (place : ℕ) (go : Pointer → Outcome) → on (members_of instrs.now from.pointee) (into_struct instrs.now place (pointer_of from) index go) ≡ walked_outcome place go led) }
{
    match members(instrs, from.pointee) {
        None => Ok(Walked::Stuck),
        Some(types) => part(instrs, from, index, types),
    }
}

/// The member of a struct of these members behind a pointer.
fn part(instrs: &Instrs, from: SlowPointer, index: u32, types: &[u32]) -> Result<Walked, Memory>
    requires { length instrs.now < 2 ^ 32 }
    ensures { IfOk result (λ led. (place : ℕ) (go : Pointer → Outcome) → into_struct instrs.now place (pointer_of from) index go types.now ≡ walked_outcome place go led) }
{
    if types.len() <= index as usize {
        return Ok(Walked::Strayed);
    }
    let prefix = [from.pointee, index, decoration::OFFSET];
    match prefixed(instrs, op::MEMBER_DECORATE, &prefix, 3) {
        None => Ok(Walked::Stuck),
        Some(offset) => {
            let offset = offset_sum(from.offset, offset)?;
            Ok(Walked::Reached(SlowPointer {
                variable: from.variable,
                offset,
                pointee: types[index as usize],
            }))
        }
    }
}

/// What an access chain's indexes lead to from a pointer.
fn walk(
    instrs: &Instrs,
    entries: &[Entry],
    from: SlowPointer,
    indexes: &[u32],
) -> Result<Walked, Memory>
    requires { length instrs.now < 2 ^ 32 }
    ensures { IfOk result (λ led. (place : ℕ) (go : Pointer → Outcome) → meaning.walk instrs.now place (ids_of instrs.now entries.now) (pointer_of from) indexes.now go ≡ walked_outcome place go led) }
{
    match indexes {
        [] => Ok(Walked::Reached(from)),
        [index, rest @ ..] => match word(instrs, entries, *index) {
            None => Ok(Walked::Stuck),
            Some(word) => match member(instrs, from, word)? {
                Walked::Reached(to) => {
                    let led = walk(instrs, entries, to, rest)?;
                    Ok(led)
                }
                Walked::Strayed => Ok(Walked::Strayed),
                Walked::Stuck => Ok(Walked::Stuck),
            },
        },
    }
}

/// The place of a variable's buffer among the buffers.
fn buffer_of(instrs: &Instrs, buffers: &[Buffer], variable: u32) -> Option<usize>
    requires { length instrs.now < 2 ^ 32 }
    ensures { result ≡ buffer_place instrs.now buffers.now variable }
{
    let set = prefixed(
        instrs,
        op::DECORATE,
        &[variable, decoration::DESCRIPTOR_SET],
        2,
    )?;
    let binding = prefixed(instrs, op::DECORATE, &[variable, decoration::BINDING], 2)?;
    place_of(buffers, set, binding)
}

/// Whether a type is one of integers.
fn is_integer(instrs: &Instrs, of: u32) -> bool
    requires { length instrs.now < 2 ^ 32 }
    ensures { result ≡ is_int instrs.now of }
{
    placed(instrs, op::TYPE_INT, 0, of, 0).is_some()
}

/// Reads the word behind a pointer.
fn read(instrs: &Instrs, buffers: &[Buffer], from: SlowPointer) -> Option<u32>
    requires { length instrs.now < 2 ^ 32 }
    ensures { (go : ℕ → Outcome) → meaning.read instrs.now buffers.now (pointer_of from) go ≡ on result go }
{
    if !is_integer(instrs, from.pointee) {
        return None;
    }
    match buffer_of(instrs, buffers, from.variable) {
        None => None,
        Some(place) => Some(word_at(buffers[place].bytes.as_slice(), from.offset as usize)),
    }
}

/// Writes the word behind a pointer, if it is there.
fn write(alloc: Global, instrs: &Instrs, buffers: &mut [Buffer], to: SlowPointer, word: u32) -> bool
    requires { length instrs.now < 2 ^ 32 }
    ensures count { length buffers.new ≡ length buffers.old }
    ensures write { (go : List Buffer → Outcome) → meaning.write instrs.now buffers.old (pointer_of to) word go ≡ written_outcome result go buffers.new }
{
    if !is_integer(instrs, to.pointee) {
        return false;
    }
    match buffer_of(instrs, buffers, to.variable) {
        None => false,
        Some(place) => {
            put_in(alloc, &mut buffers[place], to.offset, word);
            true
        }
    }
}

/// Puts a word into the bytes of a buffer.
fn put_in(alloc: Global, buffer: &mut Buffer, at: u32, word: u32)
    ensures { buffer.new ≡ record buffer.old { bytes = words.put_word buffer.old.bytes at word } }
{
    let mut bytes = mem::replace(&mut buffer.bytes, Bytes::new(alloc)).into_vec();
    put_word(&mut bytes, at as usize, word);
    buffer.bytes = Bytes::from_vec(bytes);
}

/// Gives a value to an id.
fn give(machine: &mut SlowMachine, id: u32, value: SlowValue) -> Result<(), Memory>
    ensures { OnOk result ((code : List Instr) (choices : List ℕ) → state_of code choices machine.new ≡ record (state_of code choices machine.old) { ids = meaning.give (ids_of code machine.old.entries.items) id (value_of value) }) }
{
    machine.entries.insert(0, Entry { id, value })?;
    Ok(())
}

/// Does an access chain.
fn access(
    instrs: &Instrs,
    machine: &mut SlowMachine,
    id: u32,
    base: u32,
    indexes: &[u32],
) -> Result<Stepped, Memory>
    requires { length instrs.now < 2 ^ 32 }
    ensures { IfOk result (λ stepped. (place : ℕ) (choices : List ℕ) → meaning.act instrs.now place (state_of instrs.now choices machine.old) (meaning.AccessChain id base indexes.now) ≡ stepped_outcome place stepped (state_of instrs.now choices machine.new)) }
{
    match pointer(instrs, &machine.entries, base) {
        None => Ok(Stepped::Stuck),
        Some(from) => match walk(instrs, &machine.entries, from, indexes)? {
            Walked::Reached(to) => {
                give(machine, id, SlowValue::Points(to))?;
                Ok(Stepped::Going)
            }
            Walked::Strayed => Ok(Stepped::Strayed),
            Walked::Stuck => Ok(Stepped::Stuck),
        },
    }
}

/// Does a load.
fn load(instrs: &Instrs, machine: &mut SlowMachine, id: u32, from: u32) -> Result<Stepped, Memory>
    requires { length instrs.now < 2 ^ 32 }
    ensures { IfOk result (λ stepped. (place : ℕ) (choices : List ℕ) → meaning.act instrs.now place (state_of instrs.now choices machine.old) (meaning.Load id from) ≡ stepped_outcome place stepped (state_of instrs.now choices machine.new)) }
{
    match pointer(instrs, &machine.entries, from) {
        None => Ok(Stepped::Stuck),
        Some(from) => match read(instrs, &machine.buffers, from) {
            None => Ok(Stepped::Stuck),
            Some(word) => {
                give(machine, id, SlowValue::Word(word))?;
                Ok(Stepped::Going)
            }
        },
    }
}

/// Does a sum.
fn add(
    instrs: &Instrs,
    machine: &mut SlowMachine,
    id: u32,
    left: u32,
    right: u32,
) -> Result<Stepped, Memory>
    requires { length instrs.now < 2 ^ 32 }
    ensures { IfOk result (λ stepped. (place : ℕ) (choices : List ℕ) → meaning.act instrs.now place (state_of instrs.now choices machine.old) (meaning.Add id left right) ≡ stepped_outcome place stepped (state_of instrs.now choices machine.new)) }
{
    match word(instrs, &machine.entries, left) {
        None => Ok(Stepped::Stuck),
        Some(x) => match word(instrs, &machine.entries, right) {
            None => Ok(Stepped::Stuck),
            Some(y) => {
                give(machine, id, SlowValue::Word(word_sum(x, y)))?;
                Ok(Stepped::Going)
            }
        },
    }
}

/// Does a store.
fn store(alloc: Global, instrs: &Instrs, machine: &mut SlowMachine, to: u32, value: u32) -> Stepped
    requires { length instrs.now < 2 ^ 32 }
    ensures { (place : ℕ) (choices : List ℕ) → meaning.act instrs.now place (state_of instrs.now choices machine.old) (meaning.Store to value) ≡ stepped_outcome place result (state_of instrs.now choices machine.new) }
{
    match pointer(instrs, &machine.entries, to) {
        None => Stepped::Stuck,
        Some(to) => match word(instrs, &machine.entries, value) {
            None => Stepped::Stuck,
            Some(word) => {
                if write(alloc, instrs, &mut machine.buffers, to, word) {
                    Stepped::Going
                } else {
                    Stepped::Stuck
                }
            }
        },
    }
}

/// The instruction of an opcode and operands.
fn action_of(opcode: u16, args: &[u32]) -> SlowAction<'_>
    ensures { action_in result ≡ meaning.action_of (record { op = opcode; args = args.now }) }
{
    match opcode {
        op::LABEL => SlowAction::Label,
        op::ACCESS_CHAIN => access_action(args),
        op::LOAD => load_action(args),
        op::I_ADD => add_action(args),
        op::STORE => store_action(args),
        op::RETURN => SlowAction::Return,
        _ => SlowAction::Unknown,
    }
}

/// An access chain of these operands.
fn access_action(args: &[u32]) -> SlowAction<'_>
    ensures { action_in result ≡ meaning.access_chain args.now }
{
    match args {
        [_, id, base, indexes @ ..] => SlowAction::AccessChain(*id, *base, indexes),
        _ => SlowAction::Unknown,
    }
}

/// A load of these operands.
fn load_action(args: &[u32]) -> SlowAction<'_>
    ensures { action_in result ≡ meaning.load args.now }
{
    match args {
        [_, id, from] => SlowAction::Load(*id, *from),
        _ => SlowAction::Unknown,
    }
}

/// A sum of these operands.
fn add_action(args: &[u32]) -> SlowAction<'_>
    ensures { action_in result ≡ meaning.add args.now }
{
    match args {
        [_, id, left, right] => SlowAction::Add(*id, *left, *right),
        _ => SlowAction::Unknown,
    }
}

/// A store of these operands.
fn store_action(args: &[u32]) -> SlowAction<'_>
    ensures { action_in result ≡ meaning.store args.now }
{
    match args {
        [to, value] => SlowAction::Store(*to, *value),
        _ => SlowAction::Unknown,
    }
}

/// Does an instruction.
fn act(
    alloc: Global,
    instrs: &Instrs,
    machine: &mut SlowMachine,
    action: SlowAction<'_>,
) -> Result<Stepped, Memory>
    requires { length instrs.now < 2 ^ 32 }
    ensures { IfOk result (λ stepped. (place : ℕ) (choices : List ℕ) → meaning.act instrs.now place (state_of instrs.now choices machine.old) (action_in action.entry) ≡ stepped_outcome place stepped (state_of instrs.now choices machine.new)) }
{
    match action {
        SlowAction::Label => Ok(Stepped::Going),
        SlowAction::AccessChain(id, base, indexes) => access(instrs, machine, id, base, indexes),
        SlowAction::Load(id, from) => load(instrs, machine, id, from),
        SlowAction::Add(id, left, right) => add(instrs, machine, id, left, right),
        SlowAction::Store(to, value) => Ok(store(alloc, instrs, machine, to, value)),
        SlowAction::Return => Ok(Stepped::Ended),
        SlowAction::Unknown => Ok(Stepped::Stuck),
    }
}

/// The first word of the instruction at an index, in the module's file with its header of five words.
/// Where that passes 64 bits, the slow program gives up as for want of memory.
fn place(m: &Module, at: usize) -> Result<u64, Memory>
    requires count { length m.now.instrs < 2 ^ 32 }
    requires within { at ≤ length m.now.instrs }
    ensures { IfOk result (λ place. place ≡ meaning.place_of m.now (drop at m.now.instrs)) }
{
    let mut words = 5u64;
    for i in 0..at {
        let args = m.instrs.args(i as u32);
        words = word_sum_64(words, 1 + args.len() as u64)?;
    }
    Ok(words)
}

/// A sum of counts of words.
fn word_sum_64(a: u64, b: u64) -> Result<u64, Memory>
    ensures { IfOk result (λ sum. sum ≡ a + b) }
{
    match a.checked_add(b) {
        None => Err(Memory),
        Some(sum) => Ok(sum),
    }
}

/// Does the next instruction.
fn step(alloc: Global, m: &Module, machine: &mut SlowMachine) -> Result<Stopped, Memory>
    requires count { length m.now.instrs < 2 ^ 32 }
    ensures { IfOk result (λ stopped. (choices : List ℕ) → meaning.step m.now (state_of m.now.instrs choices machine.old) ≡ stopped_outcome stopped (state_of m.now.instrs choices machine.new)) }
{
    let at = machine.at;
    if m.instrs.len() <= at {
        return Ok(Stopped::Stuck);
    }
    let opcode = m.instrs.op(at as u32);
    let args = m.instrs.args(at as u32);
    machine.at = at + 1;
    match act(alloc, &m.instrs, machine, action_of(opcode, args))? {
        Stepped::Going => Ok(Stopped::Going),
        Stepped::Ended => Ok(Stopped::Ended),
        Stepped::Strayed => {
            let place = place(m, at)?;
            Ok(Stopped::Strayed(place))
        }
        Stepped::Stuck => Ok(Stopped::Stuck),
    }
}

/// Does so many instructions, as long as the run goes on.
fn run(alloc: Global, m: &Module, machine: &mut SlowMachine, steps: u32) -> Result<Stopped, Memory>
    requires count { length m.now.instrs < 2 ^ 32 }
    ensures { IfOk result (λ stopped. (choices : List ℕ) → meaning.run m.now steps (state_of m.now.instrs choices machine.old) ≡ stopped_outcome stopped (state_of m.now.instrs choices machine.new)) }
{
    if steps == 0 {
        return Ok(Stopped::Going);
    }
    match step(alloc, m, machine)? {
        Stopped::Going => {
            let stopped = run(alloc, m, machine, steps - 1)?;
            Ok(stopped)
        }
        Stopped::Ended => Ok(Stopped::Ended),
        Stopped::Strayed(place) => Ok(Stopped::Strayed(place)),
        Stopped::Stuck => Ok(Stopped::Stuck),
    }
}

/// The index behind a function's first instruction.
fn function_at(instrs: &Instrs, function: u32) -> usize
    requires { length instrs.now < 2 ^ 32 }
    ensures { drop result instrs.now ≡ meaning.in_function function instrs.now }
{
    for i in 0..instrs.len() {
        let args = instrs.args(i as u32);
        if instrs.op(i as u32) == op::FUNCTION && operand_at(args, 1) == function {
            return i + 1;
        }
    }
    instrs.len()
}

/// The index of the first label from an index on.
fn label_from(instrs: &Instrs, from: usize) -> usize
    requires { length instrs.now < 2 ^ 32 }
    ensures { drop result instrs.now ≡ meaning.from_label (drop from instrs.now) }
{
    for i in from..instrs.len() {
        if instrs.op(i as u32) == op::LABEL {
            return i;
        }
    }
    instrs.len()
}

/// The index of the entry.
fn entry_at(instrs: &Instrs) -> usize
    requires { length instrs.now < 2 ^ 32 }
    ensures { drop result instrs.now ≡ meaning.entry instrs.now }
{
    match prefixed(instrs, op::ENTRY_POINT, &[], 1) {
        None => instrs.len(),
        Some(function) => label_from(instrs, function_at(instrs, function)),
    }
}

/// Runs a module on an input for so many instructions. Its answer is the definition's. A module of more
/// instructions than 32 bits count is given up as for want of memory.
pub fn run_module(alloc: Global, m: &Module, input: Input, steps: u32) -> Result<SlowRun, Memory>
    requires choices { length input.choices < 2 ^ 32 }
    ensures { IfOk result (λ ran. IsOutcome ran (meaning.after m.now steps input)) }
{
    if m.instrs.len() > u32::MAX as usize {
        return Err(Memory);
    }
    let Input {
        buffers,
        choices,
        ..
    } = input;
    let mut machine = SlowMachine {
        at: entry_at(&m.instrs),
        entries: Vec::new(alloc),
        buffers: buffers.into_vec(),
    };
    let stopped = run(alloc, m, &mut machine, steps)?;
    let SlowMachine { buffers, .. } = machine;
    match stopped {
        Stopped::Going => Ok(SlowRun::Going),
        Stopped::Ended => Ok(SlowRun::Ended(Output {
            buffers: List::from_vec(buffers),
            outs: Outs::new(alloc),
            killed: false,
            rest: choices.len() as u32,
        })),
        Stopped::Strayed(place) => Ok(SlowRun::Strayed(place)),
        Stopped::Stuck => Ok(SlowRun::Stuck),
    }
}
