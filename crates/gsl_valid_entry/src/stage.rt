//! What the entry point and the variables of a stage are asked about.

ghost use Rattle.std.specs.Prelude.{◌≡◌, ◌^◌, ◌<◌, Some, length, map, take, IfOk};
ghost use Rattle.std.specs.List.{list_any};
ghost use Rattle.gsl_decorations.specs.Firsts.{first_from};
ghost use Rattle.gsl_kinds.specs.Seen.{kind_seen};
ghost use Rattle.gsl_valid.specs.EntryRules as spec;
ghost use Rattle.gsl_valid.specs.Instruction.{read};
ghost use Rattle.gsl_valid.specs.Placed.{count_of_words};
ghost use Rattle.gsl_valid_entry.specs.Reading.{mode_seen, model_from};
ghost use Rattle.gsl_valid_entry.specs.Stages as stages;

use crate::interface::Interface;
use crate::marks::{Calls, Locations};
use crate::modes::{Mode, are_modes, modes_among};
use gsl_base::Memory;
use gsl_decorations::{Decorations, firsts, is_below};
use gsl_ids::{Definitions, Each};
use gsl_instr::enumerant::execution_model;
use gsl_kinds::{Kind, kind_at};
use indexmap::IndexMap;
use std::alloc::Global;
use std::marker::Model;

/// A module with the stage of its entry point, its calls, its locations, its modes and its interface. Contracts see the module.
#[derive(Drop)]
pub(crate) struct Stage<'a> {
    decorations: &'a Decorations<'a>,
    model: u32,
    calls: IndexMap<u32, u32>,
    locations: IndexMap<(u32, u32), u32>,
    modes: Vec<Mode<'a>>,
    interface: Interface,
}

impl<'a> Model for Stage<'a> {
    ghost use Rattle.std.specs.Prelude.{◌≡◌, map};
    ghost use Rattle.gsl_words.specs.declared.module.Module.{Module as OneModule};
    ghost use Rattle.gsl_valid.specs.EntryRules.{model_of, modes_of, interface_of};
    ghost use Rattle.gsl_valid_entry.specs.Reading.{mode_seen};
    ghost use Rattle.gsl_valid_entry.specs.Stages.{TellsCalls, TellsLocations};

    ghost Value = { OneModule };

    ghost view = { λ stage. stage.decorations.now };

    ghost invariant = { λ stage. (stage.model ≡ model_of stage.decorations.now.instrs) × TellsCalls stage.calls stage.decorations.now.instrs × TellsLocations stage.locations stage.decorations.now × (map mode_seen stage.modes.items ≡ modes_of stage.decorations.now) × (stage.interface ≡ interface_of stage.decorations.now) };
}

impl<'a> Stage<'a> {
    /// What is asked of a module.
    pub(crate) fn new(alloc: Global, decorations: &'a Decorations<'a>) -> Result<Stage<'a>, Memory>
        requires length { length decorations.now.instrs < 2 ^ 32 }
        requires words { count_of_words decorations.now < 2 ^ 32 }
        ensures { IfOk result (λ stage. stage ≡ decorations.now) }
    {
        let model = model_of(decorations);
        let calls = calls_of(alloc, decorations)?;
        let locations = locations_of(alloc, decorations)?;
        let modes = modes_of(alloc, decorations)?;
        let interface = interface_of(alloc, decorations)?;
        Ok(Stage {
            decorations,
            model,
            calls,
            locations,
            modes,
            interface,
        })
    }

    /// The decorations of the module.
    pub(crate) fn decorations(&self) -> &'a Decorations<'a>
        ensures { result.now ≡ self.now }
    {
        self.decorations
    }

    /// The definitions of the module.
    pub(crate) fn definitions(&self) -> &'a Definitions<'a>
        ensures { result.now ≡ self.now }
    {
        self.decorations.definitions()
    }

    /// The stage of the entry point.
    pub(crate) fn model(&self) -> u32
        ensures { result ≡ spec.model_of self.now.instrs }
    {
        self.model
    }

    /// Whether a function is called.
    pub(crate) fn is_called(&self, function: u32) -> bool
        ensures { result ≡ list_any (λ i. spec.is_call_of function (read i)) self.now.instrs }
    {
        self.first_call(function).is_some()
    }

    /// The number of the first call of a function.
    fn first_call(&self, function: u32) -> Option<u32>
        ensures { result ≡ first_from (λ i. spec.is_call_of function (read i)) 0 self.now.instrs }
    {
        self.calls.get(&function).copied()
    }

    /// Whether a decoration among so many instructions at the front of the module gives a variable of a class, if there is one, a location.
    pub(crate) fn locates_in(&self, count: u32, class: Option<u32>, location: u32) -> bool
        ensures { result ≡ list_any (λ i. spec.gives_location self.now class location (read i)) (take count self.now.instrs) }
    {
        match class {
            Some(class) => is_below(count, self.first_located(class, location)),
            None => false,
        }
    }

    /// The number of the first decoration that gives a variable of a class a location.
    fn first_located(&self, class: u32, location: u32) -> Option<u32>
        ensures { result ≡ first_from (λ i. spec.gives_location self.now (Some class) location (read i)) 0 self.now.instrs }
    {
        self.locations.get(&(class, location)).copied()
    }

    /// Whether the modes of the module are those of a stage and a function.
    pub(crate) fn has_modes(&self, model: u32, function: u32) -> bool
        ensures { result ≡ spec.are_modes model function (spec.modes_of self.now) }
    {
        are_modes(model, function, self.modes.as_slice())
    }

    /// Whether each of the Input and Output variables stands once among some ids, and no other does.
    pub(crate) fn is_listed(&self, alloc: Global, listed: &[u32]) -> Result<bool, Memory>
        ensures { IfOk result (λ each. each ≡ spec.lists_each (spec.interface_of self.now) listed.now) }
    {
        let each = self.interface.is_listed(alloc, listed)?;
        Ok(each)
    }
}

/// The first call of each function.
fn calls_of(alloc: Global, decorations: &Decorations<'_>) -> Result<IndexMap<u32, u32>, Memory>
    requires { length decorations.now.instrs < 2 ^ 32 }
    ensures { IfOk result (λ rows. stages.TellsCalls rows decorations.now.instrs) }
{
    let rows = firsts(alloc, decorations.definitions().module(), &Calls)?;
    Ok(rows)
}

/// The first decoration that gives each class and location.
fn locations_of(
    alloc: Global,
    decorations: &Decorations<'_>,
) -> Result<IndexMap<(u32, u32), u32>, Memory>
    requires { length decorations.now.instrs < 2 ^ 32 }
    ensures { IfOk result (λ rows. stages.TellsLocations rows decorations.now) }
{
    let definitions = decorations.definitions();
    let rows = firsts(alloc, definitions.module(), &Locations { definitions })?;
    Ok(rows)
}

/// All modes of a module.
fn modes_of<'a>(alloc: Global, decorations: &'a Decorations<'a>) -> Result<Vec<Mode<'a>>, Memory>
    requires length { length decorations.now.instrs < 2 ^ 32 }
    requires words { count_of_words decorations.now < 2 ^ 32 }
    ensures { IfOk result (λ modes. map mode_seen modes.items ≡ spec.modes_of decorations.now) }
{
    let modes = modes_among(alloc, Each::new(decorations.definitions().module()))?;
    Ok(modes)
}

/// The Input and Output variables of a module.
fn interface_of(alloc: Global, decorations: &Decorations<'_>) -> Result<Interface, Memory>
    requires length { length decorations.now.instrs < 2 ^ 32 }
    requires words { count_of_words decorations.now < 2 ^ 32 }
    ensures { IfOk result (λ interface. interface ≡ spec.interface_of decorations.now) }
{
    let interface = Interface::new(alloc, Each::new(decorations.definitions().module()))?;
    Ok(interface)
}

/// The stage of the entry point of a module.
fn model_of(decorations: &Decorations<'_>) -> u32
    requires length { length decorations.now.instrs < 2 ^ 32 }
    requires words { count_of_words decorations.now < 2 ^ 32 }
    ensures { result ≡ spec.model_of decorations.now.instrs }
{
    first_model(Each::new(decorations.definitions().module()))
}

/// The stage of the first entry point of some instructions.
#[tactic(auto, unfolding(crate::specs::Reading::model_from))]
fn first_model(each: Each<'_>) -> u32
    ensures { result ≡ model_from each.entry }
{
    let mut each = each;
    while let Some((_, op, args)) = each.next() {
        if let Kind::Enters { model, .. } = kind_at(op, args) {
            return model;
        }
    }
    execution_model::GL_COMPUTE
}
