//! The text that shows a module.

ghost use Rattle.std.specs.Prelude.{◌≡◌, [], ◌∷◌, ◌++◌, ◌<◌, ◌^◌, length, slice_index, codes, IfOk, OnOk};
ghost use Rattle.std.specs.List.{flat_map, AllByRecursion};
ghost use Rattle.std.specs.Option.{unwrap_or};
ghost use Rattle.std.specs.Fmt.{decimal};
ghost use Rattle.gsl_instr.specs.Texts as texts;
ghost use Rattle.gsl_asm.specs.Names as names;
ghost use Rattle.gsl_words.specs.Faults.{FitsInstr, FitsTypes};
ghost use Rattle.gsl_words.specs.Instructions.{HasFile};
ghost use Rattle.gsl_asm.specs.Words as words;
ghost use Rattle.gsl_asm.specs.Instructions as instructions;
ghost use Rattle.gsl_asm.specs.Shown as spec;
ghost use Rattle.gsl_asm.specs.Texts.{IsTextOf};

use crate::names::{name_of, opcode_name};
use crate::place::{Place, place_of};
use gsl_base::{Bytes, Memory};
use gsl_instr::enumerant::decoration;
use gsl_instr::{Enumeration, Parts, Slot, form_of, slots, text_at};
use gsl_words::{Instrs, Module, Target};
use std::alloc::Global;

/// The text that shows a module, which is one of its texts.
pub fn show(alloc: Global, module: &Module) -> Result<Bytes, Memory>
    requires file { HasFile «module».now }
    requires few { length «module».now.instrs < 2 ^ 32 }
    ensures shown { IfOk result (λ text. text ≡ spec.shown «module».now) }
    ensures text { IfOk result (λ text. IsTextOf text «module».now) }
{
    let text = written(alloc, module)?;
    Ok(text)
}

/// Writes the version and the bound, and then the instructions.
fn written(alloc: Global, module: &Module) -> Result<Bytes, Memory>
    requires { length «module».now.instrs < 2 ^ 32 }
    ensures text { IfOk result (λ text. text ≡ spec.shown «module».now) }
    ensures fits { IfOk result (λ _. FitsTypes «module».now) }
{
    let target = Target::of_version(module.version).unwrap_or(Target::V10);
    let mut out = Bytes::new(alloc);
    put_head(alloc, target, module.bound, &mut out)?;
    put_instrs(alloc, target, &module.instrs, &mut out)?;
    Ok(out)
}

fn put_head(alloc: Global, target: Target, bound: u32, out: &mut Bytes) -> Result<(), Memory>
    ensures { OnOk result (out.new ≡ out.old ++ spec.head_text target bound) }
{
    out.extend_from_slice(b"spirv ")?;
    out.extend_from_slice(version_name(target))?;
    out.push(b' ')?;
    put_number(alloc, bound, out)?;
    out.extend_from_slice(b"\n")
}

fn version_name(target: Target) -> &'static [u8]
    ensures { result.now ≡ instructions.version_name target }
{
    match target {
        Target::V10 => b"1.0",
        Target::V13 => b"1.3",
    }
}

fn put_instrs(alloc: Global, target: Target, instrs: &Instrs, out: &mut Bytes) -> Result<(), Memory>
    requires { length instrs.now < 2 ^ 32 }
    ensures text { OnOk result (out.new ≡ out.old ++ flat_map (spec.instr_text target) instrs.now) }
    ensures fits { OnOk result (AllByRecursion FitsInstr instrs.now) }
{
    for i in 0..instrs.len() {
        put_instr(
            alloc,
            target,
            instrs.op(i as u32),
            instrs.args(i as u32),
            out,
        )?;
    }
    Ok(())
}

#[tactic(auto, unfolding(crate::specs::Shown::instr_text))]
fn put_instr(
    alloc: Global,
    target: Target,
    op: u16,
    args: &[u32],
    out: &mut Bytes,
) -> Result<(), Memory>
    ensures text { OnOk result (out.new ≡ out.old ++ spec.instr_text target (record { op = op; args = args.now })) }
    ensures fits { FitsInstr (record { op = op; args = args.now }) }
{
    let Some(form) = form_of(op) else {
        return Ok(());
    };
    put_result(alloc, place_of(slots(form)), args, out)?;
    put_name(op, out)?;
    put_operands(alloc, target, Parts::new(form, args), out)?;
    out.extend_from_slice(b"\n")
}

fn put_result(alloc: Global, place: Place, args: &[u32], out: &mut Bytes) -> Result<(), Memory>
    ensures { OnOk result (out.new ≡ out.old ++ spec.result_text place args.now) }
{
    match place {
        Place::Nowhere => Ok(()),
        Place::First => put_equals(alloc, first_of(args, 0), out),
        Place::Second => put_equals(alloc, first_of(args, 1), out),
    }
}

fn put_equals(alloc: Global, id: u32, out: &mut Bytes) -> Result<(), Memory>
    ensures { OnOk result (out.new ≡ out.old ++ (spec.id_text id ++ codes " = ")) }
{
    put_id(alloc, id, out)?;
    out.extend_from_slice(b" = ")
}

fn put_name(op: u16, out: &mut Bytes) -> Result<(), Memory>
    ensures { OnOk result (out.new ≡ out.old ++ unwrap_or (names.opcode_name op) []) }
{
    match opcode_name(op) {
        Some(name) => out.extend_from_slice(name),
        None => Ok(()),
    }
}

fn put_operands(
    alloc: Global,
    target: Target,
    mut parts: Parts<'_>,
    out: &mut Bytes,
) -> Result<(), Memory>
    ensures { OnOk result (out.new ≡ out.old ++ spec.operands_text target 0 parts.entry) }
{
    let mut last = 0;
    while let Some(part) = parts.next() {
        let words = part.words.as_slice();
        put_operand(alloc, target, last, part.slot, words, out)?;
        last = first_of(words, 0);
    }
    Ok(())
}

fn put_operand(
    alloc: Global,
    target: Target,
    last: u32,
    slot: Slot,
    words: &[u32],
    out: &mut Bytes,
) -> Result<(), Memory>
    ensures { OnOk result (out.new ≡ out.old ++ spec.operand_text target last slot words.now) }
{
    let word = first_of(words, 0);
    match slot {
        Slot::Result => Ok(()),
        Slot::Id => put_spaced_id(alloc, word, out),
        Slot::Forward => put_spaced_id(alloc, word, out),
        Slot::Number => put_spaced(alloc, word, out),
        Slot::Named(enumeration) => put_enumerant(alloc, target, enumeration, word, out),
        Slot::OfDecoration => {
            if last == decoration::BUILT_IN {
                put_enumerant(alloc, target, Enumeration::BuiltIn, word, out)
            } else {
                put_spaced(alloc, word, out)
            }
        }
        Slot::Text => put_string(alloc, words, out),
    }
}

fn put_enumerant(
    alloc: Global,
    target: Target,
    enumeration: Enumeration,
    number: u32,
    out: &mut Bytes,
) -> Result<(), Memory>
    ensures { OnOk result (out.new ≡ out.old ++ 32 ∷ spec.enumerant_text target enumeration number) }
{
    out.push(b' ')?;
    match name_of(target, enumeration, number) {
        Some(name) => out.extend_from_slice(name),
        None => put_number(alloc, number, out),
    }
}

fn put_string(alloc: Global, args: &[u32], out: &mut Bytes) -> Result<(), Memory>
    ensures { OnOk result (out.new ≡ out.old ++ 32 ∷ spec.string_text (texts.text_at args.now)) }
{
    out.push(b' ')?;
    match text_at(alloc, args)? {
        Some((text, _)) => put_quoted(text.as_slice(), out),
        None => Ok(()),
    }
}

fn put_quoted(text: &[u8], out: &mut Bytes) -> Result<(), Memory>
    ensures { OnOk result (out.new ≡ out.old ++ words.quoted text.now) }
{
    out.push(b'"')?;
    put_escaped(text, out)?;
    out.push(b'"')
}

fn put_escaped(text: &[u8], out: &mut Bytes) -> Result<(), Memory>
    ensures { OnOk result (out.new ≡ out.old ++ words.escaped text.now) }
{
    for byte in text {
        put_byte(*byte, out)?;
    }
    Ok(())
}

fn put_byte(byte: u8, out: &mut Bytes) -> Result<(), Memory>
    ensures { OnOk result (out.new ≡ out.old ++ words.escape byte) }
{
    match byte {
        b'"' => out.extend_from_slice(b"\\\""),
        b'\\' => out.extend_from_slice(b"\\\\"),
        b'\n' => out.extend_from_slice(b"\\n"),
        b'\r' => out.extend_from_slice(b"\\r"),
        _ => out.push(byte),
    }
}

fn put_spaced_id(alloc: Global, id: u32, out: &mut Bytes) -> Result<(), Memory>
    ensures { OnOk result (out.new ≡ out.old ++ 32 ∷ spec.id_text id) }
{
    out.push(b' ')?;
    put_id(alloc, id, out)
}

fn put_id(alloc: Global, id: u32, out: &mut Bytes) -> Result<(), Memory>
    ensures { OnOk result (out.new ≡ out.old ++ spec.id_text id) }
{
    out.push(b'%')?;
    put_number(alloc, id, out)
}

fn put_spaced(alloc: Global, number: u32, out: &mut Bytes) -> Result<(), Memory>
    ensures { OnOk result (out.new ≡ out.old ++ 32 ∷ decimal number) }
{
    out.push(b' ')?;
    put_number(alloc, number, out)
}

fn put_number(alloc: Global, number: u32, out: &mut Bytes) -> Result<(), Memory>
    ensures { OnOk result (out.new ≡ out.old ++ decimal number) }
{
    let digits = number.to_string(alloc)?;
    out.extend_from_slice(digits.as_bytes())
}

/// A word by its place, 0 where there is none.
fn first_of(words: &[u32], at: usize) -> u32
    ensures { result ≡ slice_index words.now at }
{
    match words.get(at) {
        Some(word) => *word,
        None => 0,
    }
}
