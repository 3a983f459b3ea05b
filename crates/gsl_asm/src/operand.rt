//! Operands of a line.

ghost use Rattle.std.specs.Prelude.{◌≡◌, ◌==◌, IfOk};
ghost use Rattle.std.specs.List.{list_any};
ghost use Rattle.std.specs.Str.{is_utf8 as spells_text};
ghost use Rattle.gsl_asm.specs.Operands as operands;
ghost use Rattle.gsl_asm.specs.Reading as spec;
ghost use Rattle.gsl_asm.specs.Reading.{Added};

use crate::chars::Raw;
use crate::names::number_of;
use crate::word::Word;
use gsl_base::{List, Memory};
use gsl_instr::enumerant::decoration;
use gsl_instr::{Enumeration, Slot, push_string};
use gsl_text::{natural, unsigned};
use gsl_words::Target;
use std::alloc::Global;

/// Adds the operand words that a word stands for, by what the operand is and the operand word before it.
#[tactic(auto, unfolding(crate::specs::Reading::operand_of))]
pub fn put_operand(
    alloc: Global,
    target: Target,
    last: u32,
    slot: Slot,
    word: Word<'_>,
    args: &mut List<u32>,
) -> Result<bool, Memory>
    ensures { IfOk result (λ good. Added good args.old args.new (spec.operand_of target last slot word.entry)) }
{
    match word {
        Word::Plain(chars) => put_plain(target, last, slot, chars.as_slice(), args),
        Word::Quoted(raw) => put_quoted(alloc, slot, raw, args),
    }
}

fn put_plain(
    target: Target,
    last: u32,
    slot: Slot,
    word: &[u8],
    args: &mut List<u32>,
) -> Result<bool, Memory>
    ensures { IfOk result (λ good. Added good args.old args.new (spec.plain_operand target last slot word.now)) }
{
    match plain_operand(target, last, slot, word) {
        Some(operand) => {
            args.push(operand)?;
            Ok(true)
        }
        None => Ok(false),
    }
}

fn plain_operand(target: Target, last: u32, slot: Slot, word: &[u8]) -> Option<u32>
    ensures { spec.one result ≡ spec.plain_operand target last slot word.now }
{
    match slot {
        Slot::Result => id_of(word),
        Slot::Id => id_of(word),
        Slot::Forward => id_of(word),
        Slot::Number => unsigned(word),
        Slot::Named(enumeration) => enumerant_of(target, enumeration, word),
        Slot::OfDecoration => {
            if last == decoration::BUILT_IN {
                enumerant_of(target, Enumeration::BuiltIn, word)
            } else {
                unsigned(word)
            }
        }
        Slot::Text => None,
    }
}

/// The id that a word writes.
fn id_of(word: &[u8]) -> Option<u32>
    ensures { result ≡ operands.id_of word.now }
{
    match word {
        [] => None,
        [byte, digits @ ..] => {
            if *byte == b'%' {
                natural(10, digits)
            } else {
                None
            }
        }
    }
}

/// The enumerant that a word names or writes.
fn enumerant_of(target: Target, enumeration: Enumeration, word: &[u8]) -> Option<u32>
    ensures { result ≡ operands.enumerant_of target enumeration word.now }
{
    match number_of(target, enumeration, word) {
        Some(number) => Some(number),
        None => unsigned(word),
    }
}

fn put_quoted(alloc: Global, slot: Slot, raw: Raw<'_>, args: &mut List<u32>) -> Result<bool, Memory>
    ensures { IfOk result (λ good. Added good args.old args.new (spec.quoted_operand slot raw.entry)) }
{
    match slot {
        Slot::Result => Ok(false),
        Slot::Id => Ok(false),
        Slot::Forward => Ok(false),
        Slot::Number => Ok(false),
        Slot::Named(_) => Ok(false),
        Slot::OfDecoration => Ok(false),
        Slot::Text => put_text(alloc, raw, args),
    }
}

fn put_text(alloc: Global, raw: Raw<'_>, args: &mut List<u32>) -> Result<bool, Memory>
    ensures { IfOk result (λ good. Added good args.old args.new (spec.text_operand raw.entry)) }
{
    let bytes = raw.bytes(alloc)?;
    put_bytes(bytes.as_slice(), args)
}

fn put_bytes(bytes: &[u8], args: &mut List<u32>) -> Result<bool, Memory>
    ensures { IfOk result (λ good. Added good args.old args.new (spec.text_operand bytes.now)) }
{
    if has_zero(bytes) {
        return Ok(false);
    }
    let Ok(text) = str::from_utf8(bytes) else {
        return Ok(false);
    };
    push_string(args, text)?;
    Ok(true)
}

/// Whether a byte is zero.
pub fn has_zero(bytes: &[u8]) -> bool
    ensures { result ≡ list_any (λ byte. byte == 0) bytes.now }
{
    bytes.iter().any(|byte| *byte == 0)
}

pub fn is_utf8(bytes: &[u8]) -> bool
    ensures { result ≡ spells_text bytes.now }
{
    str::from_utf8(bytes).is_ok()
}
