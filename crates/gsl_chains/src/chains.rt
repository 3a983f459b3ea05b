//! How many words functions take that run at once, by the chains of calls.

ghost use Rattle.std.specs.Prelude.{◌≡◌, ◌^◌, ◌<◌, None, length, IfOk};
ghost use Rattle.gsl_chains.specs.Chains as spec;
ghost use Rattle.gsl_leaves.specs.Table.{told};
ghost use Rattle.gsl_valid.specs.IdsDefinedOnce.{ids_defined_once};

use crate::walking::{body_at, greatest_called, plus, word_at};
use gsl_base::Memory;
use gsl_frames::{Frames, Taken};
use std::alloc::Global;

/// The words that functions take which run at once: in slots, and as their variables.
#[derive(Clone, Copy)]
pub struct Room {
    pub slots: u64,
    pub variables: u64,
}

/// Which words of a frame.
#[derive(Clone, Copy)]
pub(crate) enum Row {
    Slots,
    Variables,
}

/// How many functions run at once at most.
const MOST_FUNCTIONS: u32 = 65;

/// How many words all functions take at most that run at once, where the first is that of an id, told like the words of types. It takes 24 bytes for each id
/// below the bound while it counts.
pub fn room_for(alloc: Global, frames: &Frames<'_>, entry: u32) -> Result<Room, Memory>
    requires few { length frames.now.instrs < 2 ^ 32 }
    requires once { ids_defined_once frames.now ≡ None }
    ensures { IfOk result (λ room. room ≡ spec.told_room (spec.room frames.now entry)) }
{
    let slots = in_chains(alloc, frames, Row::Slots, entry)?;
    let variables = in_chains(alloc, frames, Row::Variables, entry)?;
    Ok(Room { slots, variables })
}

/// The words of a frame that are meant.
#[tactic(auto, unfolding(gsl_leaves::specs::Table::told))]
fn words_in(row: Row, taken: Taken) -> u64
    ensures { result ≡ spec.words_in row taken }
{
    match row {
        Row::Slots => taken.most,
        Row::Variables => taken.variables,
    }
}

/// What is taken at most in chains that begin in the function of an id: a table by ids is made again from itself as often as functions may call each other, or
/// until it stays the same.
fn in_chains(alloc: Global, frames: &Frames<'_>, row: Row, entry: u32) -> Result<u64, Memory>
    requires few { length frames.now.instrs < 2 ^ 32 }
    requires once { ids_defined_once frames.now ≡ None }
    ensures { IfOk result (λ words. words ≡ told (spec.in_chains frames.now (spec.words_in row) spec.most_functions (spec.body_of frames.now entry))) }
{
    let own = own_rows(alloc, frames, row)?;
    let mut rows = vec![in alloc; 0; own.len()]?;
    let mut left = MOST_FUNCTIONS;
    while left > 0 {
        let next = longer(alloc, frames, &own, &rows)?;
        if next.as_slice() == rows.as_slice() {
            return Ok(word_at(&rows, entry));
        }
        rows = next;
        left -= 1;
    }
    Ok(word_at(&rows, entry))
}

/// What the function of each id takes.
fn own_rows(alloc: Global, frames: &Frames<'_>, row: Row) -> Result<Vec<u64>, Memory>
    requires few { length frames.now.instrs < 2 ^ 32 }
    requires once { ids_defined_once frames.now ≡ None }
    ensures { IfOk result (λ rows. rows.items ≡ spec.own_rows frames.now (spec.words_in row)) }
{
    let definitions = frames.leaves().definitions();
    let bound = definitions.module().bound;
    let mut rows = Vec::new(alloc);
    let mut id = 0;
    while id < bound {
        let taken = frames.frame(body_at(definitions, id));
        rows.push(words_in(row, taken))?;
        id += 1;
    }
    Ok(rows)
}

/// What the function of each id takes with one that it calls.
fn longer(alloc: Global, frames: &Frames<'_>, own: &[u64], rows: &[u64]) -> Result<Vec<u64>, Memory>
    requires few { length frames.now.instrs < 2 ^ 32 }
    requires once { ids_defined_once frames.now ≡ None }
    ensures { IfOk result (λ next. next.items ≡ spec.longer frames.now own.now rows.now) }
{
    let definitions = frames.leaves().definitions();
    let bound = definitions.module().bound;
    let mut next = Vec::new(alloc);
    let mut id = 0;
    while id < bound {
        let most = greatest_called(definitions, rows, body_at(definitions, id));
        next.push(plus(word_at(own, id), most))?;
        id += 1;
    }
    Ok(next)
}
