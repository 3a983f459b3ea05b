//! What ids stand for.

ghost use Rattle.std.specs.Prelude.{◌≡◌, ◌<◌, ◌^◌, length, IfOk};
ghost use Rattle.gsl_enact_memory.specs.Reaching.{pointer_if_seen};
ghost use Rattle.gsl_enact_state.specs.Seen as seen;
ghost use Rattle.gsl_kinds.specs.Seen.{kind_seen};
ghost use Rattle.gsl_machine.specs.Interfaces as spec;
ghost use Rattle.gsl_valid.specs.Kinds as kinds;
ghost use Rattle.gsl_valid.specs.Placed.{count_of_words, placed};

use crate::code::Code;
use crate::held::{copy_held, pointer_of, value_of};
use crate::rows::row_of;
use crate::state::{Given, Held, State};
use crate::variables::{point_to_blocks, point_to_values, variables_outside};
use gsl_base::{List, Memory};
use gsl_decorations::Decorations;
use gsl_enact_memory::Pointer;
use gsl_enact_values::constant;
use gsl_ids::Definitions;
use gsl_kinds::{Kind, kind_if};
use gsl_values::Value;
use std::alloc::Global;
use std::marker::Model;

/// A module with the rows of its variables. Contracts see the module.
#[derive(Drop)]
pub struct Globals<'a> {
    decorations: &'a Decorations<'a>,
    code: Code<'a>,
    rows: List<Given>,
}

impl<'a> Model for Globals<'a> {
    ghost use Rattle.std.specs.Prelude.{◌≡◌};
    ghost use Rattle.gsl_words.specs.declared.module.Module.{Module as OneModule};
    ghost use Rattle.gsl_machine.specs.Interfaces.{constant_held, globals};
    ghost use Rattle.gsl_enact_state.specs.Seen.{given};
    ghost use Rattle.gsl_valid.specs.Placed.{placed};

    ghost Value = { OneModule };

    ghost view = { λ g. g.decorations.now };

    ghost invariant = { λ g. (g.code ≡ placed g.decorations.now) × (given (constant_held g.decorations.now) g.rows ≡ globals g.decorations.now) };
}

impl<'a> Globals<'a> {
    /// What ids stand for in all functions of a module.
    pub fn new(alloc: Global, decorations: &'a Decorations<'a>) -> Result<Globals<'a>, Memory>
        requires few { length decorations.now.instrs < 2 ^ 32 }
        requires words { count_of_words decorations.now < 2 ^ 32 }
        ensures { IfOk result (λ g. g ≡ decorations.now) }
    {
        let rows = rows_of(alloc, decorations.definitions())?;
        let code = Code::new(decorations.definitions().module());
        Ok(Globals {
            decorations,
            code,
            rows,
        })
    }

    /// All instructions of the module.
    pub fn code(&self) -> Code<'a>
        ensures { result ≡ placed self.now }
    {
        self.code.copied()
    }

    /// The decorations of the module.
    pub fn decorations(&self) -> &'a Decorations<'a>
        ensures { result.now ≡ self.now }
    {
        self.decorations
    }

    /// What an id stands for.
    #[tactic(auto, unfolding(crate::specs::Seen::ids_seen))]
    pub fn held(&self, alloc: Global, state: &State<'_>, id: u32) -> Result<Option<Held>, Memory>
        ensures { IfOk result (λ h. seen.held_if_seen h ≡ seen.ids_seen self.now state.now.own state.now.rows id) }
    {
        match row_of(state.rows.as_slice(), id) {
            Some(held) => {
                let held = copy_held(alloc, held)?;
                Ok(Some(held))
            }
            None => self.held_in_function(alloc, state.own.as_slice(), id),
        }
    }

    /// What it stands for in the whole function.
    #[tactic(auto, unfolding(crate::specs::Seen::own_seen))]
    fn held_in_function(
        &self,
        alloc: Global,
        own: &[Given],
        id: u32,
    ) -> Result<Option<Held>, Memory>
        ensures { IfOk result (λ h. seen.held_if_seen h ≡ seen.own_seen self.now own.now id) }
    {
        match row_of(own, id) {
            Some(held) => {
                let held = copy_held(alloc, held)?;
                Ok(Some(held))
            }
            None => self.held_in_module(alloc, id),
        }
    }

    /// What it stands for in all functions.
    fn held_in_module(&self, alloc: Global, id: u32) -> Result<Option<Held>, Memory>
        ensures { IfOk result (λ h. seen.held_if_seen h ≡ spec.globals self.now id) }
    {
        match row_of(self.rows.as_slice(), id) {
            Some(held) => {
                let held = copy_held(alloc, held)?;
                Ok(Some(held))
            }
            None => constant_held(alloc, self.decorations.definitions(), id),
        }
    }

    /// The value that an id stands for, if it is one.
    pub fn value(&self, alloc: Global, state: &State<'_>, id: u32) -> Result<Option<Value>, Memory>
        ensures { IfOk result (λ v. v ≡ seen.whole_in (seen.ids_seen self.now state.now.own state.now.rows id)) }
    {
        let held = self.held(alloc, state, id)?;
        Ok(value_of(held))
    }

    /// The pointer that an id stands for, if it is one.
    pub fn pointer(
        &self,
        alloc: Global,
        state: &State<'_>,
        id: u32,
    ) -> Result<Option<Pointer>, Memory>
        ensures { IfOk result (λ p. pointer_if_seen p ≡ seen.pointer_in (seen.ids_seen self.now state.now.own state.now.rows id)) }
    {
        let held = self.held(alloc, state, id)?;
        Ok(pointer_of(held))
    }
}

/// The rows of the variables of a module.
fn rows_of(alloc: Global, definitions: &Definitions<'_>) -> Result<List<Given>, Memory>
    ensures { IfOk result (λ rows. seen.given (spec.constant_held definitions.now) rows ≡ spec.globals definitions.now) }
{
    let values = variables_outside(alloc, definitions, false)?;
    let blocks = variables_outside(alloc, definitions, true)?;
    let mut rows = List::new(alloc);
    point_to_values(alloc, &mut rows, 0, values.as_slice())?;
    point_to_blocks(definitions, &mut rows, blocks.as_slice())?;
    Ok(rows)
}

/// What a constant's id stands for.
fn constant_held(
    alloc: Global,
    definitions: &Definitions<'_>,
    id: u32,
) -> Result<Option<Held>, Memory>
    ensures { IfOk result (λ h. seen.held_if_seen h ≡ spec.constant_held definitions.now id) }
{
    if !is_constant(kind_if(definitions.get(id))) {
        return Ok(None);
    }
    let value = constant(alloc, definitions, id)?;
    Ok(Some(Held::Whole(value)))
}

fn is_constant(kind: Kind<'_>) -> bool
    ensures { result ≡ seen.is_there (kinds.constant_in (kind_seen kind.entry)) }
{
    matches!(kind, Kind::Fixes { .. })
}
