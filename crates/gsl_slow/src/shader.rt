//! A plain slow program for what a shader does: it runs the shader on the words of its block.

ghost use Rattle.std.specs.Prelude.{◌≡◌, ◌+◌, ◌*◌, ◌^◌, ◌<◌, ◌≤◌, List, ℕ, length, set, slice_index, IfOk, OnOk, Ok, position};
ghost use Rattle.std.specs.List.{AllByRecursion};
ghost use Rattle.gsl_form.specs.Form.{IsTerm, IsStatement, IsProgram};
ghost use Rattle.gsl_cmd.specs.Words as sums;
ghost use Rattle.gsl_words.specs.Words as spec;
ghost use Rattle.gsl_cmd.specs.Buffers.{is_at, bytes_at, word_offset, seen, put_words};
ghost use Rattle.gsl_cmd.specs.Needs as needs;
ghost use Rattle.gsl_cmd.specs.Fits.{fits};
ghost use Rattle.gsl_slow.specs.Runs.{IsRun};
ghost use Rattle.gsl_cmd.specs.Shader.{Got, Normal};
ghost use Rattle.gsl_cmd.specs.Shader as shader;

use gsl_base::{Buffer, Bytes, Comps, Input, InputRefusal, List, Memory, Output, Outs};
use gsl_form::{Program, Statement, Term};
use std::alloc::Global;
use std::mem;

/// A sum keeps the low 32 bits.
#[tactic(auto, unfolding(gsl_cmd::specs::Words::word_sum))]
pub(crate) fn word_sum(a: u32, b: u32) -> u32
    ensures { result ≡ sums.word_sum a b }
{
    a.wrapping_add(b)
}

/// A byte, or zero past the end.
fn byte_at(bytes: &[u8], at: usize) -> u8
    ensures { result ≡ slice_index bytes.now at }
{
    if at < bytes.len() { bytes[at] } else { 0 }
}

/// The word of the four bytes from an offset on.
#[tactic(auto, unfolding(gsl_words::specs::Words::word_at))]
pub(crate) fn word_at(bytes: &[u8], at: usize) -> u32
    requires { at + 4 < 2 ^ 64 }
    ensures { result ≡ spec.word_at bytes.now at }
{
    let a = u32::from(byte_at(bytes, at));
    let b = u32::from(byte_at(bytes, at + 1));
    let c = u32::from(byte_at(bytes, at + 2));
    let d = u32::from(byte_at(bytes, at + 3));
    a + 256 * b + 65536 * c + 16777216 * d
}

/// Changes a byte, if it is there.
fn put_byte(bytes: &mut [u8], at: usize, byte: u8)
    ensures { bytes.new ≡ set bytes.old at byte }
{
    if at < bytes.len() {
        bytes[at] = byte;
    }
}

/// Changes the four bytes from an offset on to those of a word.
#[tactic(auto, unfolding(gsl_words::specs::Words::put_word))]
pub(crate) fn put_word(bytes: &mut [u8], at: usize, word: u32)
    requires { at + 4 < 2 ^ 64 }
    ensures { bytes.new ≡ spec.put_word bytes.old at word }
{
    put_byte(bytes, at, (word % 256) as u8);
    put_byte(bytes, at + 1, (word / 256 % 256) as u8);
    put_byte(bytes, at + 2, (word / 65536 % 256) as u8);
    put_byte(bytes, at + 3, (word / 16777216 % 256) as u8);
}

/// The words of a block of so many members.
fn seen_words(alloc: Global, bytes: &[u8], members: usize) -> Result<Comps, Memory>
    requires { members ≤ 64 }
    ensures words { IfOk result (λ words. words ≡ seen members bytes.now) }
    ensures count { IfOk result (λ words. length words ≡ members) }
{
    let mut words = Comps::new(alloc);
    for i in 0..members {
        words.push(word_at(bytes, 4 * i))?;
    }
    Ok(words)
}

/// Puts the words of a block.
fn put_all(bytes: &mut [u8], words: &[u32])
    requires { length words.now ≤ 64 }
    ensures { bytes.new ≡ put_words 0 words.now bytes.old }
{
    for i in 0..words.len() {
        put_word(bytes, 4 * i, words[i]);
    }
}

/// The word of a term.
fn term(words: &[u32], term: Term) -> u32
    requires { IsTerm (length words.now) term }
    ensures { (choices : List ℕ) (units : ℕ) → shader.eval_term term (record { words = words.now; choices = choices }) units ≡ Got result (record { words = words.now; choices = choices }) units }
{
    match term {
        Term::Member(i) => words[i as usize],
        Term::Literal(n) => n,
    }
}

/// Adds terms to a word, from left to right.
fn more(words: &[u32], word: u32, terms: &[Term]) -> u32
    requires { AllByRecursion (IsTerm (length words.now)) terms.now }
    ensures { (choices : List ℕ) (units : ℕ) → shader.eval_more word terms.now (record { words = words.now; choices = choices }) units ≡ Got result (record { words = words.now; choices = choices }) units }
{
    match terms {
        [] => word,
        [first, rest @ ..] => more(words, word_sum(word, term(words, *first)), rest),
    }
}

/// The sum of terms.
fn sum(words: &[u32], terms: &[Term]) -> u32
    requires { AllByRecursion (IsTerm (length words.now)) terms.now }
    ensures { (choices : List ℕ) (units : ℕ) → shader.eval_sum terms.now (record { words = words.now; choices = choices }) units ≡ Got result (record { words = words.now; choices = choices }) units }
{
    match terms {
        [] => 0,
        [first, rest @ ..] => more(words, term(words, *first), rest),
    }
}

/// Runs a statement.
fn statement(words: &mut [u32], statement: &Statement)
    requires { IsStatement (length words.old) statement.now }
    ensures run { (choices : List ℕ) (units : ℕ) → shader.run_statement statement.now (record { words = words.old; choices = choices }) units ≡ Got Normal (record { words = words.new; choices = choices }) units }
    ensures count { length words.new ≡ length words.old }
{
    let value = sum(words, statement.terms.as_slice());
    words[statement.target as usize] = value;
}

/// Runs statements in their order.
fn statements(words: &mut [u32], statements: &[Statement])
    requires { AllByRecursion (IsStatement (length words.old)) statements.now }
    ensures run { (choices : List ℕ) (units : ℕ) → shader.run_statements statements.now (record { words = words.old; choices = choices }) units ≡ Got Normal (record { words = words.new; choices = choices }) units }
    ensures count { length words.new ≡ length words.old }
{
    match statements {
        [] => {}
        [first, rest @ ..] => {
            statement(words, first);
            self::statements(words, rest);
        }
    }
}

/// Runs the shader on the buffer of its block.
fn run_in(alloc: Global, program: &Program, buffer: &mut Buffer) -> Result<(), Memory>
    requires { IsProgram program.now }
    ensures { OnOk result (IsRun program.now buffer.old buffer.new) }
{
    let mut bytes = mem::replace(&mut buffer.bytes, Bytes::new(alloc)).into_vec();
    let mut words = seen_words(alloc, &bytes, program.members.len())?.into_vec();
    statements(&mut words, program.statements.as_slice());
    put_all(&mut bytes, &words);
    buffer.bytes = Bytes::from_vec(bytes);
    Ok(())
}

/// The place of the buffer at a set and binding.
pub(crate) fn place_of(buffers: &[Buffer], set: u32, binding: u32) -> Option<usize>
    ensures { result ≡ position (is_at set binding) buffers.now }
{
    buffers
        .iter()
        .position(|buffer| buffer.set == set && buffer.binding == binding)
}

/// The answer on the block's buffer: it is there, and long enough.
fn block_given(program: &Program, buffers: &[Buffer]) -> Result<(), InputRefusal>
    requires { IsProgram program.now }
    ensures { result ≡ needs.given (record { set = 0; binding = 0; need = word_offset (length program.now.members) }) (bytes_at buffers.now 0 0) }
{
    match place_of(buffers, 0, 0) {
        None => Err(InputRefusal::NoBuffer(0, 0)),
        Some(place) => {
            if buffers[place].bytes.len() < 4 * program.members.len() {
                Err(InputRefusal::TooShort(0, 0))
            } else {
                Ok(())
            }
        }
    }
}

/// Whether each part is below its bound.
fn all_below(parts: &[u32], bounds: &[u32]) -> bool
    ensures { result ≡ needs.all_below parts.now bounds.now }
{
    match parts {
        [] => true,
        [part, parts @ ..] => match bounds {
            [] => false,
            [bound, bounds @ ..] => *part < *bound && all_below(parts, bounds),
        },
    }
}

/// Whether an input fits the shader, or else the first refusal.
pub fn fits_shader(program: &Program, input: &Input) -> Result<(), InputRefusal>
    requires { IsProgram program.now }
    ensures { result ≡ fits program.now input.now }
{
    block_given(program, input.buffers.as_slice())?;
    let size = [1, 1, 1];
    if all_below(&input.local, &size) && all_below(&input.group, &input.groups) {
        Ok(())
    } else {
        Err(InputRefusal::BadIds)
    }
}

/// Runs the shader on an input that fits. Its answer is the definition's, whatever the budget.
pub fn run_shader(alloc: Global, program: &Program, input: Input) -> Result<Output, Memory>
    requires form { IsProgram program.now }
    requires fits { fits program.now input ≡ Ok tt }
    requires choices { length input.choices < 2 ^ 32 }
    ensures { IfOk result (λ output. (units : ℕ) → shader.shader program.now units input ≡ shader.Ended output) }
{
    let Input {
        buffers,
        choices,
        ..
    } = input;
    let mut buffers = buffers.into_vec();
    if let Some(place) = place_of(&buffers, 0, 0) {
        run_in(alloc, program, &mut buffers[place])?;
    }
    Ok(Output {
        buffers: List::from_vec(buffers),
        outs: Outs::new(alloc),
        killed: false,
        rest: choices.len() as u32,
    })
}
