//! Chains that lead through members that may not be read, or not be written.

ghost use Rattle.std.specs.Prelude.{◌≡◌, ◌<◌, ◌^◌, length, IfOk};
ghost use Rattle.gsl_valid.specs.Placed.{count_of_words};
ghost use Rattle.gsl_valid_blocks.specs.Guards as guards;

use crate::chain::leads_through;
use gsl_base::Memory;
use gsl_decorations::Decorations;
use gsl_ids::Each;
use gsl_instr::enumerant::decoration;
use gsl_instr::read;
use std::alloc::Global;
use std::marker::Model;

/// Which instructions of a module are chains that lead through a member which may not be read, or not be written, so that each chain is
/// walked once. Contracts see the module.
#[derive(Drop)]
pub(crate) struct Guards<'a> {
    decorations: &'a Decorations<'a>,
    unreadable: Vec<bool>,
    unwritable: Vec<bool>,
}

impl<'a> Model for Guards<'a> {
    ghost use Rattle.std.specs.Prelude.{◌≡◌};
    ghost use Rattle.gsl_words.specs.declared.module.Module.{Module as OneModule};
    ghost use Rattle.gsl_instr.specs.declared.enumerant.decoration.TheConstants as decoration;
    ghost use Rattle.gsl_valid_blocks.specs.Guards.{rows_of};

    ghost Value = { OneModule };

    ghost view = { λ g. g.decorations.now };

    ghost invariant = { λ g. (g.unreadable.items ≡ rows_of g.decorations.now decoration.NON_READABLE g.decorations.now.instrs) × (g.unwritable.items ≡ rows_of g.decorations.now decoration.NON_WRITABLE g.decorations.now.instrs) };
}

impl<'a> Guards<'a> {
    ghost use Rattle.gsl_instr.specs.declared.enumerant.decoration.TheConstants as decoration;
    ghost use Rattle.gsl_valid.specs.MemoryRules as spec;
    ghost use Rattle.gsl_valid.specs.Types as types;

    /// Those of a module.
    pub(crate) fn new(alloc: Global, decorations: &'a Decorations<'a>) -> Result<Guards<'a>, Memory>
        requires length { length decorations.now.instrs < 2 ^ 32 }
        requires words { count_of_words decorations.now < 2 ^ 32 }
        ensures { IfOk result (λ g. g ≡ decorations.now) }
    {
        let unreadable = rows_of(alloc, decorations, decoration::NON_READABLE)?;
        let unwritable = rows_of(alloc, decorations, decoration::NON_WRITABLE)?;
        Ok(Guards {
            decorations,
            unreadable,
            unwritable,
        })
    }

    /// The decorations of the module.
    pub(crate) fn decorations(&self) -> &'a Decorations<'a>
        ensures { result.now ≡ self.now }
    {
        self.decorations
    }

    /// Whether an id stands for a chain that leads through a member which may not be read.
    pub(crate) fn is_unreadable(&self, id: u32) -> bool
        ensures { result ≡ spec.leads_through self.now decoration.NON_READABLE (types.defined_as self.now id) }
    {
        row(&self.unreadable, self.decorations.definitions().number(id))
    }

    /// Whether an id stands for a chain that leads through a member which may not be written.
    pub(crate) fn is_unwritable(&self, id: u32) -> bool
        ensures { result ≡ spec.leads_through self.now decoration.NON_WRITABLE (types.defined_as self.now id) }
    {
        row(&self.unwritable, self.decorations.definitions().number(id))
    }
}

/// What the row before a number says, if there is one.
fn row(rows: &Vec<bool>, number: u32) -> bool
    ensures { result ≡ guards.row rows.now.items number }
{
    if number == 0 {
        return false;
    }
    match rows.get(number as usize - 1) {
        Some(leads) => *leads,
        None => false,
    }
}

/// Whether each instruction is a chain that leads through a member with a decoration of a kind.
fn rows_of(alloc: Global, decorations: &Decorations<'_>, kind: u32) -> Result<Vec<bool>, Memory>
    requires length { length decorations.now.instrs < 2 ^ 32 }
    requires words { count_of_words decorations.now < 2 ^ 32 }
    ensures { IfOk result (λ rows. rows.items ≡ guards.rows_of decorations.now kind decorations.now.instrs) }
{
    let rows = rows_among(
        alloc,
        decorations,
        kind,
        Each::new(decorations.definitions().module()),
    )?;
    Ok(rows)
}

/// The same, of some instructions.
#[tactic(auto, unfolding(crate::specs::Guards::rows_from))]
fn rows_among(
    alloc: Global,
    decorations: &Decorations<'_>,
    kind: u32,
    each: Each<'_>,
) -> Result<Vec<bool>, Memory>
    ensures { IfOk result (λ rows. rows.items ≡ guards.rows_from decorations.now kind each.entry) }
{
    let mut each = each;
    let mut rows = Vec::new(alloc);
    while let Some((_, op, args)) = each.next() {
        rows.push(leads_through(decorations, kind, read(op, args)))?;
    }
    Ok(rows)
}
