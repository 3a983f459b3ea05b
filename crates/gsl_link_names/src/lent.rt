//! Declarations of units that are lent.

ghost use Rattle.std.specs.Prelude.{◌≡◌};

use gsl_base::List;
use gsl_tree::{Block, GlobalVar, Interface, Prototype};
use std::marker::Model;

/// A global variable that is lent. Contracts see the variable.
#[derive(Drop)]
pub(crate) struct LentVariable<'a> {
    variable: &'a GlobalVar,
}

impl<'a> Model for LentVariable<'a> {
    ghost use Rattle.gsl_tree.specs.declared.unit.GlobalVar.{GlobalVar as One};
    ghost use Rattle.gsl_tree.specs.contracts.unit.GlobalVar as row;

    ghost Value = { One };

    ghost coded = { row.the_row.coded };

    ghost view = { λ lent. lent.variable.now };
}

impl<'a> LentVariable<'a> {
    pub(crate) fn new(variable: &'a GlobalVar) -> LentVariable<'a>
        ensures { result ≡ variable.now }
    {
        LentVariable { variable }
    }

    pub(crate) fn get(&self) -> &'a GlobalVar
        ensures { result.now ≡ self.now }
    {
        self.variable
    }
}

/// An input or an output that is lent. Contracts see it.
#[derive(Drop)]
pub(crate) struct LentInterface<'a> {
    interface: &'a Interface,
}

impl<'a> Model for LentInterface<'a> {
    ghost use Rattle.gsl_tree.specs.declared.unit.Interface.{Interface as One};
    ghost use Rattle.gsl_tree.specs.contracts.unit.Interface as row;

    ghost Value = { One };

    ghost coded = { row.the_row.coded };

    ghost view = { λ lent. lent.interface.now };
}

impl<'a> LentInterface<'a> {
    pub(crate) fn new(interface: &'a Interface) -> LentInterface<'a>
        ensures { result ≡ interface.now }
    {
        LentInterface { interface }
    }

    pub(crate) fn get(&self) -> &'a Interface
        ensures { result.now ≡ self.now }
    {
        self.interface
    }
}

/// The head of a function that is lent. Contracts see the head.
#[derive(Drop)]
pub(crate) struct LentHead<'a> {
    head: &'a Prototype,
}

impl<'a> Model for LentHead<'a> {
    ghost use Rattle.gsl_tree.specs.declared.unit.Prototype.{Prototype as One};
    ghost use Rattle.gsl_tree.specs.contracts.unit.Prototype as row;

    ghost Value = { One };

    ghost coded = { row.the_row.coded };

    ghost view = { λ lent. lent.head.now };
}

impl<'a> LentHead<'a> {
    pub(crate) fn new(head: &'a Prototype) -> LentHead<'a>
        ensures { result ≡ head.now }
    {
        LentHead { head }
    }

    pub(crate) fn get(&self) -> &'a Prototype
        ensures { result.now ≡ self.now }
    {
        self.head
    }
}

/// A block that is lent. Contracts see the block.
#[derive(Drop)]
pub(crate) struct LentBlock<'a> {
    block: &'a Block,
}

impl<'a> Model for LentBlock<'a> {
    ghost use Rattle.gsl_tree.specs.declared.unit.Block.{Block as One};
    ghost use Rattle.gsl_tree.specs.contracts.unit.Block as row;

    ghost Value = { One };

    ghost coded = { row.the_row.coded };

    ghost view = { λ lent. lent.block.now };
}

impl<'a> LentBlock<'a> {
    pub(crate) fn new(block: &'a Block) -> LentBlock<'a>
        ensures { result ≡ block.now }
    {
        LentBlock { block }
    }

    pub(crate) fn get(&self) -> &'a Block
        ensures { result.now ≡ self.now }
    {
        self.block
    }
}

/// A declaration that has its name alone in a unit. A block has the offsets of its members with it.
#[derive(Drop)]
pub(crate) enum Named<'a> {
    Variable(LentVariable<'a>),
    Interface(LentInterface<'a>),
    Block(LentBlock<'a>, List<u32>),
}
