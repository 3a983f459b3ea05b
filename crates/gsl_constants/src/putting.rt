//! Words of constants that are put behind those of the constants before them.

ghost use Rattle.std.specs.Prelude.{◌≡◌, ◌+◌, ◌++◌, ◌≤◌, ◌<◌, ℕ, drop, length, replicate, slice_index, take, OnOk};
ghost use Rattle.std.specs.List.{flat_map};
ghost use Rattle.gsl_constants.specs.Rows as spec;
ghost use Rattle.gsl_kinds.specs.Seen as seen;
ghost use Rattle.gsl_leaves.specs.Leaves.{leaves as leaves_of};
ghost use Rattle.gsl_machine.specs.Constants as machine;
ghost use Rattle.gsl_valid.specs.Kinds as kinds;

use gsl_base::Memory;
use gsl_instr::op;
use gsl_kinds::{Kind, Value};
use gsl_leaves::{Leaves, MOST};

/// Puts so many of the words from a place on behind all of them.
pub(crate) fn put_again(words: &mut Vec<u32>, first: usize, count: usize) -> Result<(), Memory>
    requires { first + count ≤ length words.old.items }
    ensures { OnOk result (words.new.items ≡ words.old.items ++ take count (drop first words.old.items)) }
{
    for k in 0..count {
        let word = words[first + k];
        words.push(word)?;
    }
    Ok(())
}

/// Puts so many zeros behind all words.
pub(crate) fn put_zeros(words: &mut Vec<u32>, count: u64) -> Result<(), Memory>
    ensures { OnOk result (words.new.items ≡ words.old.items ++ replicate count 0) }
{
    for k in 0..count {
        words.push(0)?;
    }
    Ok(())
}

/// Puts the words of the parts of a constant behind all words.
pub(crate) fn put_parts(
    words: &mut Vec<u32>,
    firsts: &Vec<usize>,
    counts: &Vec<usize>,
    parts: &[u32],
) -> Result<(), Memory>
    requires { (id : ℕ) → slice_index firsts.now.items id + slice_index counts.now.items id ≤ length words.old.items }
    ensures { OnOk result (words.new.items ≡ words.old.items ++ flat_map (spec.row words.old.items firsts.now.items counts.now.items) parts.now) }
{
    for k in 0..parts.len() {
        let first = row(firsts, parts[k]);
        let count = row(counts, parts[k]);
        put_again(words, first, count)?;
    }
    Ok(())
}

/// What a row says.
pub(crate) fn row(rows: &Vec<usize>, id: u32) -> usize
    ensures { result ≡ slice_index rows.now.items id }
{
    match rows.get(id as usize) {
        Some(count) => *count,
        None => 0,
    }
}

/// The word of a constant of Bool.
fn truth_of(op: u16, args: &[u32]) -> u32
    ensures { result ≡ machine.truth_of (record { op = op; args = args.now }) }
{
    let _args = args;
    if op == op::CONSTANT_TRUE { 1 } else { 0 }
}

/// Puts the zeros of a type behind all words. Of more than are told there is no memory.
fn put_zeros_of(words: &mut Vec<u32>, leaves: &Leaves<'_>, type_: u32) -> Result<(), Memory>
    ensures { OnOk result (words.new.items ≡ words.old.items ++ replicate (leaves_of leaves.now type_) 0) }
{
    let count = leaves.leaves(type_);
    if count >= MOST {
        return Err(Memory);
    }
    put_zeros(words, count)
}

/// Puts the words of a constant behind all words.
pub(crate) fn put_value(
    words: &mut Vec<u32>,
    firsts: &Vec<usize>,
    counts: &Vec<usize>,
    leaves: &Leaves<'_>,
    instr: (u16, &[u32]),
    fixed: (u32, Value<'_>),
) -> Result<(), Memory>
    requires { (id : ℕ) → slice_index firsts.now.items id + slice_index counts.now.items id ≤ length words.old.items }
    ensures { OnOk result (words.new.items ≡ words.old.items ++ spec.words_as leaves.now (spec.row words.old.items firsts.now.items counts.now.items) (record { op = instr.entry.0; args = instr.entry.1.now }) fixed.entry.0 (seen.value_seen fixed.entry.1)) }
{
    match fixed.1 {
        Value::Truth => {
            words.push(truth_of(instr.0, instr.1))?;
            Ok(())
        }
        Value::Word(word) => {
            words.push(word)?;
            Ok(())
        }
        Value::Parts(parts) => put_parts(words, firsts, counts, parts),
        Value::Zeros => put_zeros_of(words, leaves, fixed.0),
    }
}

/// Puts the words of what an instruction fixes, if it is a constant.
pub(crate) fn put_kind(
    words: &mut Vec<u32>,
    firsts: &Vec<usize>,
    counts: &Vec<usize>,
    leaves: &Leaves<'_>,
    instr: (u16, &[u32]),
    kind: Kind<'_>,
) -> Result<(), Memory>
    requires { (id : ℕ) → slice_index firsts.now.items id + slice_index counts.now.items id ≤ length words.old.items }
    ensures { OnOk result (words.new.items ≡ words.old.items ++ spec.words_if leaves.now (spec.row words.old.items firsts.now.items counts.now.items) (record { op = instr.entry.0; args = instr.entry.1.now }) (kinds.constant_in (seen.kind_seen kind.entry))) }
{
    match kind {
        Kind::Fixes { type_, value } => {
            put_value(words, firsts, counts, leaves, instr, (type_, value))
        }
        _ => Ok(()),
    }
}
