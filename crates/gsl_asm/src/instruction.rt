//! The instruction of a line.

ghost use Rattle.std.specs.Prelude.{◌≡◌, ◌==◌, false, slice_index, IfOk};
ghost use Rattle.gsl_asm.specs.Reading as spec;
ghost use Rattle.gsl_asm.specs.Reading.{Added, Put, Took};

use crate::chars::Chars;
use crate::line::Line;
use crate::names::opcode_of;
use crate::operand::{has_zero, is_utf8, put_operand};
use crate::place::{Place, place_of};
use crate::source::Source;
use crate::word::Word;
use gsl_base::{List, Memory};
use gsl_instr::{Form, Rest, Slot, allows, form_of, next_of, rest, slots};
use gsl_words::{Instrs, Target};
use std::alloc::Global;

/// Adds the instruction that a line says, if it says one or nothing.
#[tactic(auto, unfolding(crate::specs::Reading::line_instrs))]
pub fn put_line(
    alloc: Global,
    target: Target,
    line: &[u8],
    instrs: &mut Instrs,
) -> Result<bool, Memory>
    ensures { IfOk result (λ good. Put good instrs.old instrs.new (spec.line_instrs target line.now)) }
{
    if !is_text(line) {
        return Ok(false);
    }
    match Line::new(line) {
        None => Ok(false),
        Some(words) => put_words(alloc, target, words, instrs),
    }
}

/// Whether a line is UTF-8 without a zero byte.
pub fn is_text(line: &[u8]) -> bool
    ensures { result ≡ spec.is_text line.now }
{
    is_utf8(line) && !has_zero(line)
}

/// Adds the instruction that words say, if there are some.
fn put_words(
    alloc: Global,
    target: Target,
    mut words: Line<'_>,
    instrs: &mut Instrs,
) -> Result<bool, Memory>
    ensures { IfOk result (λ good. Put good instrs.old instrs.new (spec.instrs_of target words.entry)) }
{
    match words.next() {
        None => Ok(true),
        Some(first) => put_instr(alloc, target, first, words, instrs),
    }
}

/// Adds the instruction that words say, of which this is the first.
fn put_instr(
    alloc: Global,
    target: Target,
    first: Word<'_>,
    words: Line<'_>,
    instrs: &mut Instrs,
) -> Result<bool, Memory>
    ensures { IfOk result (λ good. Put good instrs.old instrs.new (spec.single (spec.instr_of target first.entry words.entry))) }
{
    match first {
        Word::Quoted(_) => Ok(false),
        Word::Plain(chars) => {
            if is_id(chars.as_slice()) {
                put_behind(alloc, target, chars, words, instrs)
            } else {
                put_named(alloc, target, None, chars.as_slice(), words, instrs)
            }
        }
    }
}

/// Whether a word begins as an id does.
fn is_id(word: &[u8]) -> bool
    ensures { result ≡ (slice_index word.now 0 == 37) }
{
    match word {
        [] => false,
        [byte, ..] => *byte == b'%',
    }
}

/// Adds the instruction that words say behind its result.
fn put_behind(
    alloc: Global,
    target: Target,
    id: Chars<'_>,
    mut words: Line<'_>,
    instrs: &mut Instrs,
) -> Result<bool, Memory>
    ensures { IfOk result (λ good. Put good instrs.old instrs.new (spec.single (spec.behind_result target id.entry words.entry))) }
{
    let Some(Word::Plain(sign)) = words.next() else {
        return Ok(false);
    };
    let Some(Word::Plain(name)) = words.next() else {
        return Ok(false);
    };
    if sign.as_slice() != b"=".as_slice() {
        return Ok(false);
    }
    put_named(alloc, target, Some(id), name.as_slice(), words, instrs)
}

/// Adds the instruction of a name, a result if it has one, and operands.
fn put_named(
    alloc: Global,
    target: Target,
    id: Option<Chars<'_>>,
    name: &[u8],
    words: Line<'_>,
    instrs: &mut Instrs,
) -> Result<bool, Memory>
    ensures { IfOk result (λ good. Put good instrs.old instrs.new (spec.single (spec.named target id.entry name.now words.entry))) }
{
    let Some(op) = opcode_of(name) else {
        return Ok(false);
    };
    let Some(form) = form_of(op) else {
        return Ok(false);
    };
    let Some(source) = placed(place_of(slots(form)), id, words) else {
        return Ok(false);
    };
    let mut args = List::new(alloc);
    if !put_args(alloc, target, form, source, &mut args)? {
        return Ok(false);
    }
    if args.len() >= 65535 {
        return Ok(false);
    }
    instrs.put(op, args.as_slice())?;
    Ok(true)
}

/// The operands with the result among them, if it stands where its form has it.
fn placed<'a>(place: Place, id: Option<Chars<'a>>, line: Line<'a>) -> Option<Source<'a>>
    ensures { result ≡ spec.placed place id.entry line.entry }
{
    match place {
        Place::Nowhere => match id {
            None => Some(Source::new(Place::Nowhere, Chars::new(&[]), line)),
            Some(_) => None,
        },
        Place::First => Some(Source::new(Place::First, id?, line)),
        Place::Second => Some(Source::new(Place::Second, id?, line)),
    }
}

/// Adds the operands of an instruction of a form.
#[tactic(auto, unfolding(crate::specs::Reading::args_of))]
fn put_args(
    alloc: Global,
    target: Target,
    form: Form,
    mut source: Source<'_>,
    args: &mut List<u32>,
) -> Result<bool, Memory>
    ensures { IfOk result (λ good. Added good args.old args.new (spec.args_of target form source.entry)) }
{
    let Some(last) = put_fixed(alloc, target, slots(form), 0, &mut source, args)? else {
        return Ok(false);
    };
    let fixed = args.len();
    if !put_more(alloc, target, rest(form), last, source, args)? {
        return Ok(false);
    }
    Ok(allows(rest(form), args.len() - fixed))
}

/// Adds the operands that every instruction of a form has, and answers the first word of the last of them.
#[tactic(auto, unfolding(crate::specs::Reading::fixed_of))]
fn put_fixed(
    alloc: Global,
    target: Target,
    slots: &[Slot],
    last: u32,
    source: &mut Source<'_>,
    args: &mut List<u32>,
) -> Result<Option<u32>, Memory>
    ensures { IfOk result (λ found. Took found args.old args.new source.new (spec.fixed_of target slots.now last source.old)) }
{
    match slots {
        [] => Ok(Some(last)),
        [slot, slots @ ..] => {
            let Some(word) = source.next() else {
                return Ok(None);
            };
            let before = args.len();
            if !put_operand(alloc, target, last, *slot, word, args)? {
                return Ok(None);
            }
            let last = word_at(args.as_slice(), before);
            put_fixed(alloc, target, slots, last, source, args)
        }
    }
}

/// A word by its place, 0 where there is none.
fn word_at(words: &[u32], at: usize) -> u32
    ensures { result ≡ slice_index words.now at }
{
    match words.get(at) {
        Some(word) => *word,
        None => 0,
    }
}

/// Adds what follows these operands.
fn put_more(
    alloc: Global,
    target: Target,
    rest: Rest,
    last: u32,
    mut source: Source<'_>,
    args: &mut List<u32>,
) -> Result<bool, Memory>
    ensures { IfOk result (λ good. Added good args.old args.new (spec.more_of target rest false last source.entry)) }
{
    let mut last = last;
    let mut second = false;
    while let Some(word) = source.next() {
        let before = args.len();
        if !put_operand(alloc, target, last, next_of(rest, second), word, args)? {
            return Ok(false);
        }
        last = word_at(args.as_slice(), before);
        second = !second;
    }
    Ok(true)
}
