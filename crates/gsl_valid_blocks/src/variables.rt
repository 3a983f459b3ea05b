//! The variables of a module by their classes and bindings.

ghost use Rattle.std.specs.Prelude.{◌≡◌, ◌^◌, ◌<◌, Some, length, take, IfOk};
ghost use Rattle.std.specs.List.{list_any};
ghost use Rattle.gsl_kinds.specs.Seen.{kind_seen};
ghost use Rattle.gsl_valid.specs.DecorationRules as spec;
ghost use Rattle.gsl_valid.specs.Ids.{defined};
ghost use Rattle.gsl_valid.specs.Instruction.{read};
ghost use Rattle.gsl_valid.specs.Types as types;
ghost use Rattle.gsl_decorations.specs.Firsts.{first_from};
ghost use Rattle.gsl_valid_blocks.specs.Variables as variables;

use crate::variable::{Bindings, Classes};
use gsl_base::Memory;
use gsl_decorations::{Decorations, firsts, is_below};
use gsl_kinds::{Kind, kind_at};
use gsl_words::Module;
use indexmap::IndexMap;
use std::alloc::Global;
use std::marker::Model;

/// The variables of a module, found by their classes and by their sets and bindings, and how many instructions stand before its first
/// function. Contracts see the module.
#[derive(Drop)]
pub(crate) struct Variables<'a> {
    decorations: &'a Decorations<'a>,
    outside: u32,
    classes: IndexMap<u32, u32>,
    bindings: IndexMap<(u32, u32), u32>,
}

impl<'a> Model for Variables<'a> {
    ghost use Rattle.std.specs.Prelude.{◌≡◌, take};
    ghost use Rattle.gsl_words.specs.declared.module.Module.{Module as OneModule};
    ghost use Rattle.gsl_valid.specs.Types.{outside_of};
    ghost use Rattle.gsl_valid_blocks.specs.Variables.{TellsClasses, TellsBindings};

    ghost Value = { OneModule };

    ghost view = { λ v. v.decorations.now };

    ghost invariant = { λ v. (take v.outside v.decorations.now.instrs ≡ outside_of v.decorations.now) × TellsClasses v.classes v.decorations.now.instrs × TellsBindings v.bindings v.decorations.now };
}

impl<'a> Variables<'a> {
    /// The variables of a module.
    pub(crate) fn new(
        alloc: Global,
        decorations: &'a Decorations<'a>,
    ) -> Result<Variables<'a>, Memory>
        requires { length decorations.now.instrs < 2 ^ 32 }
        ensures { IfOk result (λ v. v ≡ decorations.now) }
    {
        let outside = count_outside(decorations.definitions().module());
        let classes = classes_of(alloc, decorations)?;
        let bindings = bindings_of(alloc, decorations)?;
        Ok(Variables {
            decorations,
            outside,
            classes,
            bindings,
        })
    }

    /// The decorations of the module.
    pub(crate) fn decorations(&self) -> &'a Decorations<'a>
        ensures { result.now ≡ self.now }
    {
        self.decorations
    }

    /// Whether an id is defined outside functions.
    pub(crate) fn is_outside(&self, id: u32) -> bool
        ensures { result ≡ defined (types.outside_of self.now) id }
    {
        self.decorations
            .definitions()
            .is_defined_in(self.outside, id)
    }

    /// Whether a variable of a class is among so many instructions at the front of the module.
    pub(crate) fn has_class_in(&self, count: u32, class: u32) -> bool
        ensures { result ≡ list_any (λ i. types.variable_of class (read i)) (take count self.now.instrs) }
    {
        is_below(count, self.first_of_class(class))
    }

    /// The number of the first variable of a class.
    fn first_of_class(&self, class: u32) -> Option<u32>
        ensures { result ≡ first_from (λ i. types.variable_of class (read i)) 0 self.now.instrs }
    {
        self.classes.get(&class).copied()
    }

    /// Whether a variable that has a set and a binding, if these are some, is among so many.
    pub(crate) fn has_binding_in(&self, count: u32, set: Option<u32>, binding: Option<u32>) -> bool
        ensures { result ≡ list_any (λ i. spec.is_bound_to self.now set binding (read i)) (take count self.now.instrs) }
    {
        match set {
            Some(set) => match binding {
                Some(binding) => is_below(count, self.first_bound(set, binding)),
                None => false,
            },
            None => false,
        }
    }

    /// The number of the first variable that has a set and a binding.
    fn first_bound(&self, set: u32, binding: u32) -> Option<u32>
        ensures { result ≡ first_from (λ i. spec.is_bound_to self.now (Some set) (Some binding) (read i)) 0 self.now.instrs }
    {
        self.bindings.get(&(set, binding)).copied()
    }
}

/// The first variable of each class.
fn classes_of(alloc: Global, decorations: &Decorations<'_>) -> Result<IndexMap<u32, u32>, Memory>
    requires { length decorations.now.instrs < 2 ^ 32 }
    ensures { IfOk result (λ rows. variables.TellsClasses rows decorations.now.instrs) }
{
    let rows = firsts(alloc, decorations.definitions().module(), &Classes)?;
    Ok(rows)
}

/// The first variable of each set and binding.
fn bindings_of(
    alloc: Global,
    decorations: &Decorations<'_>,
) -> Result<IndexMap<(u32, u32), u32>, Memory>
    requires { length decorations.now.instrs < 2 ^ 32 }
    ensures { IfOk result (λ rows. variables.TellsBindings rows decorations.now) }
{
    let rows = firsts(
        alloc,
        decorations.definitions().module(),
        &Bindings { decorations },
    )?;
    Ok(rows)
}

/// How many instructions stand before the first function.
pub(crate) fn count_outside(of: &Module) -> u32
    requires { length of.now.instrs < 2 ^ 32 }
    ensures { take result of.now.instrs ≡ types.outside_of of.now }
{
    let mut at = 0;
    while (at as usize) < of.instrs.len() {
        if begins(kind_at(of.instrs.op(at), of.instrs.args(at))) {
            return at;
        }
        at += 1;
    }
    at
}

/// Whether a function begins with an instruction.
pub(crate) fn begins(kind: Kind<'_>) -> bool
    ensures { result ≡ types.begins (kind_seen kind.entry) }
{
    matches!(kind, Kind::Begins { .. })
}
