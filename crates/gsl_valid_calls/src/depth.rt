//! How deeply calls nest.

ghost use Rattle.std.specs.Prelude.{◌≡◌, ◌+◌, ◌^◌, ◌<◌, None, max, min, length, vec_len, IfOk};
ghost use Rattle.gsl_kinds.specs.Seen.{kind_seen};
ghost use Rattle.gsl_valid.specs.IdsDefinedOnce.{ids_defined_once};
ghost use Rattle.gsl_valid_calls.specs.Depths as spec;

use crate::callees::kind_of;
use crate::table::{byte_at, put_byte};
use gsl_base::Memory;
use gsl_kinds::Kind;
use gsl_words::Module;
use std::alloc::Global;

/// The depth that is told of all that nest more deeply too.
pub(crate) const DEEP: u8 = 65;

/// How deeply calls nest from each function on, by its id, begun with a guess: what the walk over the calls gives stays the same if it
/// is right, and is made again if not. It takes two bytes for each id below the bound.
pub(crate) fn depths(alloc: Global, of: &Module, guess: Vec<u8>) -> Result<Vec<u8>, Memory>
    requires few { length of.now.instrs < 2 ^ 32 }
    requires once { ids_defined_once of.now ≡ None }
    ensures { IfOk result (λ rows. spec.TellDepths rows.items of.now) }
{
    let mut rows = first_table(alloc, of, guess)?;
    let mut left = DEEP;
    while left > 0 {
        let next = deepened(alloc, of, &rows)?;
        if next.as_slice() == rows.as_slice() {
            return Ok(rows);
        }
        rows = next;
        left -= 1;
    }
    Ok(rows)
}

/// A guess, if it has a row for each id.
fn first_table(alloc: Global, of: &Module, guess: Vec<u8>) -> Result<Vec<u8>, Memory>
    ensures { IfOk result (λ rows. vec_len rows ≡ of.now.bound) }
{
    if guess.len() == of.bound as usize {
        return Ok(guess);
    }
    let rows = vec![in alloc; 0; of.bound as usize]?;
    Ok(rows)
}

/// The same, where an earlier table tells it of the functions that are called.
fn deepened(alloc: Global, of: &Module, old: &[u8]) -> Result<Vec<u8>, Memory>
    requires { length of.now.instrs < 2 ^ 32 }
    ensures { IfOk result (λ rows. rows.items ≡ (spec.swept old.now of.now.instrs).rows) }
{
    let mut rows = vec![in alloc; 0; old.len()]?;
    let mut depth = 0;
    let mut at = of.instrs.len() as u32;
    while at > 0 {
        at -= 1;
        depth = deepen(&mut rows, old, depth, kind_of(of, at));
    }
    Ok(rows)
}

/// Goes on to an instruction from those behind it, from which calls nest so deeply.
fn deepen(rows: &mut Vec<u8>, old: &[u8], depth: u8, kind: Kind<'_>) -> u8
    ensures rows { rows.new.items ≡ (spec.one_more old.now (record { rows = rows.old.items; depth = depth }) (kind_seen kind.entry)).rows }
    ensures depth { result ≡ (spec.one_more old.now (record { rows = rows.old.items; depth = depth }) (kind_seen kind.entry)).depth }
{
    match kind {
        Kind::Begins { id, .. } => {
            put_byte(rows, id, depth);
            depth
        }
        Kind::Calls { function, .. } => deeper(depth, one_more(byte_at(old, function))),
        Kind::Ended => 0,
        _ => depth,
    }
}

/// One more than a depth.
pub(crate) fn one_more(depth: u8) -> u8
    ensures { result ≡ min 65 (1 + depth) }
{
    if depth < DEEP { depth + 1 } else { DEEP }
}

/// The greater of two depths.
pub(crate) fn deeper(a: u8, b: u8) -> u8
    ensures { result ≡ max a b }
{
    if a < b { b } else { a }
}
