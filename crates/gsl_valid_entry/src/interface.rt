//! The interface of the entry point.

ghost use Rattle.std.specs.Prelude.{◌≡◌, ◌&&◌, nat_eq, IfOk};
ghost use Rattle.std.specs.List.{list_all};
ghost use Rattle.gsl_kinds.specs.Seen.{kind_seen};
ghost use Rattle.gsl_valid.specs.EntryRules as spec;
ghost use Rattle.gsl_valid.specs.Kinds as kinds;
ghost use Rattle.gsl_valid.specs.Types as types;
ghost use Rattle.gsl_valid_entry.specs.Reading.{AreIds, interface_from};
ghost use Rattle.indexmap.specs.IndexSet.{contains};

use gsl_base::Memory;
use gsl_ids::Each;
use gsl_instr::enumerant::storage_class;
use gsl_kinds::{Kind, kind_at};
use indexmap::IndexSet;
use std::alloc::Global;
use std::marker::Model;

/// The Input and Output variables of a module. Contracts see the list of them.
#[derive(Drop)]
pub(crate) struct Interface {
    ids: Vec<u32>,
    known: Ids,
}

impl Model for Interface {
    ghost use Rattle.std.specs.Prelude.{List as Plain, ℕ};
    ghost use Rattle.gsl_valid_entry.specs.Reading.{Holds};

    ghost Value = { Plain ℕ };

    ghost view = { λ interface. interface.ids.items };

    ghost invariant = { λ interface. Holds interface.known.set interface.ids.items };
}

impl Interface {
    ghost use Rattle.gsl_valid.specs.EntryRules as spec;

    /// Those of these instructions that stand before the first function.
    pub(crate) fn new(alloc: Global, each: Each<'_>) -> Result<Interface, Memory>
        ensures { IfOk result (λ interface. interface ≡ interface_from each.entry) }
    {
        let ids = interface_among(alloc, each)?;
        let known = ids_of(alloc, ids.as_slice())?;
        Ok(Interface { ids, known })
    }

    /// Whether each of them stands once among other ids, and no other does.
    pub(crate) fn is_listed(&self, alloc: Global, listed: &[u32]) -> Result<bool, Memory>
        ensures { IfOk result (λ each. each ≡ spec.lists_each self.now listed.now) }
    {
        let known = ids_of(alloc, listed)?;
        let each = all_among(&known.set, self.ids.as_slice());
        let no_other = all_among(&self.known.set, listed);
        let whole = all_three(each, no_other, known.differ);
        Ok(whole)
    }
}

/// Whether all three hold.
fn all_three(a: bool, b: bool, c: bool) -> bool
    ensures { result ≡ (a && b && c) }
{
    a && b && c
}

/// The Input and Output variables before the first function.
#[tactic(auto, unfolding(crate::specs::Reading::interface_from))]
fn interface_among(alloc: Global, each: Each<'_>) -> Result<Vec<u32>, Memory>
    ensures { IfOk result (λ ids. ids.items ≡ interface_from each.entry) }
{
    let mut each = each;
    let mut ids = Vec::new(alloc);
    while let Some((_, op, args)) = each.next() {
        let kind = kind_at(op, args);
        if begins(kind) {
            return Ok(ids);
        }
        if let Some(id) = interface_id(kind) {
            ids.push(id)?;
        }
    }
    Ok(ids)
}

/// Whether a function begins with an instruction.
fn begins(kind: Kind<'_>) -> bool
    ensures { result ≡ types.begins (kind_seen kind.entry) }
{
    matches!(kind, Kind::Begins { .. })
}

/// The id of a variable of Input or Output.
fn interface_id(kind: Kind<'_>) -> Option<u32>
    ensures { result ≡ spec.interface_id (kinds.variable_in (kind_seen kind.entry)) }
{
    match kind {
        Kind::Holds(variable) => {
            if variable.class == storage_class::INPUT || variable.class == storage_class::OUTPUT {
                Some(variable.id)
            } else {
                None
            }
        }
        _ => None,
    }
}

/// Some ids, and whether no id stands twice among them.
#[derive(Drop)]
pub(crate) struct Ids {
    set: IndexSet<u32>,
    differ: bool,
}

/// Some ids, to be looked up.
fn ids_of(alloc: Global, ids: &[u32]) -> Result<Ids, Memory>
    ensures { IfOk result (λ known. AreIds known ids.now) }
{
    let mut set = IndexSet::new(alloc);
    let mut differ = true;
    let mut at = ids.len();
    while at > 0 {
        at -= 1;
        let (_, added) = set.insert_full(ids[at])?;
        differ = added && differ;
    }
    Ok(Ids { set, differ })
}

/// Whether all ids are among those of a set.
fn all_among(set: &IndexSet<u32>, ids: &[u32]) -> bool
    ensures { result ≡ list_all (contains nat_eq set.now) ids.now }
{
    ids.iter().all(|id| set.contains(id))
}
