//! Rows of ids with what they stand for.

ghost use Rattle.std.specs.Prelude.{◌≡◌, OnOk};
ghost use Rattle.std.specs.Option.{option_map};
ghost use Rattle.gsl_enact_state.specs.Seen as seen;
ghost use Rattle.gsl_machine.specs.State.{Ids, give as give_id};
ghost use Rattle.gsl_words.specs.declared.module.Module.{Module};

use crate::state::{Given, Held, State};
use gsl_base::{List, Memory};
use std::alloc::Global;

/// What the last row of an id says.
pub(crate) fn row_of(rows: &[Given], id: u32) -> Option<&Held>
    ensures { (ids : Ids) → seen.given ids rows.now id ≡ seen.found_or (option_map (λ h. h.now) result) (ids id) }
{
    let mut at = rows.len();
    while at > 0 {
        at -= 1;
        let row = &rows[at];
        if id == row.id {
            return Some(&row.held);
        }
    }
    None
}

/// One row more, behind the others.
pub fn push_row(rows: &mut List<Given>, id: u32, held: Held) -> Result<(), Memory>
    ensures { OnOk result ((ids : Ids) → seen.given ids rows.new ≡ give_id (seen.given ids rows.old) id (seen.held_seen held)) }
{
    rows.push(Given { id, held })?;
    Ok(())
}

/// Gives an id what it stands for in its block.
pub fn give(state: &mut State<'_>, id: u32, held: Held) -> Result<(), Memory>
    ensures { OnOk result ((m : Module) → seen.state_seen m state.new ≡ record (seen.state_seen m state.old) { ids = give_id (seen.state_seen m state.old).ids id (seen.held_seen held) }) }
{
    state.rows.push(Given { id, held })?;
    Ok(())
}

/// A block begins with nothing but what lasts for the whole function.
pub fn begin_block(alloc: Global, state: &mut State<'_>)
    ensures { (m : Module) → seen.state_seen m state.new ≡ record (seen.state_seen m state.old) { ids = (seen.state_seen m state.old).own } }
{
    state.rows = List::new(alloc);
}
