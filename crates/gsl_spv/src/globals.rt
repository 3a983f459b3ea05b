//! The section of types, constants and global variables.

ghost use Rattle.std.specs.Prelude.{◌≡◌, ◌==◌, ◌||◌, [], ◌∷◌, ◌++◌, None, OnOk, OnErr, if◌then◌else◌};
ghost use Rattle.std.specs.Map.{lookup};
ghost use Rattle.gsl_instr.specs.declared.enumerant.storage_class.TheConstants as storage_class;
ghost use Rattle.gsl_instr.specs.declared.op.TheConstants as op;
ghost use Rattle.gsl_spv.specs.Declarations.{defining, variable};
ghost use Rattle.gsl_spv.specs.Growing.{AreOnce};
ghost use Rattle.gsl_spv.specs.Once.{entries, entry_of, interface_at, interface_of, same, variable_interface};

use crate::key::Key;
use gsl_base::Memory;
use gsl_instr::enumerant::storage_class;
use gsl_instr::op;
use gsl_words::Instrs;
use indexmap::IndexMap;
use std::alloc::Global;
use std::marker::Model;

/// The types, constants and global variables of a module, with the ids of those that are declared once and
/// of the input and output variables. Contracts see the list of the instructions.
#[derive(Drop)]
pub struct Globals {
    instrs: Instrs,
    known: IndexMap<Key, u32>,
    interface: Vec<u32>,
}

impl Model for Globals {
    ghost use Rattle.std.specs.Prelude.{List as Plain, ◌≡◌};
    ghost use Rattle.gsl_words.specs.declared.module.Instr.{Instr};

    ghost Value = { Plain Instr };

    ghost use Rattle.gsl_spv.specs.Once.{entries, interface_of};

    ghost view = { λ g. g.instrs };

    ghost invariant = { λ g. (g.known.entries ≡ entries g.instrs) × (g.interface.items ≡ interface_of g.instrs) };
}

impl Globals {
    ghost use Rattle.gsl_words.specs.declared.module.Instr.{Instr};

    /// None, which takes no memory.
    pub fn new(alloc: Global) -> Globals
        ensures { result ≡ [] }
    {
        Globals {
            instrs: Instrs::new(alloc),
            known: IndexMap::new(alloc),
            interface: Vec::new(alloc),
        }
    }

    /// The id of a declaration that is made once.
    pub fn find(&self, key: &Key) -> Option<u32>
        ensures { result ≡ lookup (same key.now) (entries self.now) }
    {
        self.known.get(key).copied()
    }

    /// Adds a declaration that is made once. After `Memory` all is as before.
    pub fn put_once(&mut self, key: Key, op: u16, args: &[u32], id: u32) -> Result<(), Memory>
        requires new { lookup (same key) (entries self.old) ≡ None }
        requires entry { entry_of (record { op = op; args = args.now }) ≡ (key, id) ∷ [] }
        requires interface { interface_at (record { op = op; args = args.now }) ≡ [] }
        ensures ok { OnOk result (self.new ≡ self.old ++ record { op = op; args = args.now } ∷ []) }
        ensures memory { OnErr result (self.new ≡ self.old) }
    {
        self.known.reserve(1)?;
        self.instrs.put(op, args)?;
        self.known.insert(key, id)?;
        Ok(())
    }

    /// Adds a declaration that may be made again. After `Memory` all is as before.
    pub fn put_anew(&mut self, op: u16, args: &[u32]) -> Result<(), Memory>
        requires entry { entry_of (record { op = op; args = args.now }) ≡ [] }
        requires interface { interface_at (record { op = op; args = args.now }) ≡ [] }
        ensures ok { OnOk result (self.new ≡ self.old ++ record { op = op; args = args.now } ∷ []) }
        ensures memory { OnErr result (self.new ≡ self.old) }
    {
        self.instrs.put(op, args)
    }

    /// Adds an input or output variable. After `Memory` all is as before.
    pub fn put_interface(&mut self, op: u16, args: &[u32], id: u32) -> Result<(), Memory>
        requires entry { entry_of (record { op = op; args = args.now }) ≡ [] }
        requires interface { interface_at (record { op = op; args = args.now }) ≡ id ∷ [] }
        ensures ok { OnOk result (self.new ≡ self.old ++ record { op = op; args = args.now } ∷ []) }
        ensures memory { OnErr result (self.new ≡ self.old) }
    {
        self.interface.reserve(1)?;
        self.instrs.put(op, args)?;
        self.interface.push(id)?;
        Ok(())
    }

    /// Adds a global variable. After `Memory` all is as before.
    pub fn put_variable(
        &mut self,
        pointer: u32,
        id: u32,
        class: u32,
        init: Option<u32>,
    ) -> Result<(), Memory>
        ensures ok { OnOk result (self.new ≡ self.old ++ defining (variable pointer class init) id ∷ []) }
        ensures memory { OnErr result (self.new ≡ self.old) }
    {
        match init {
            None => self.put_variable_as(&[pointer, id, class], id, class),
            Some(init) => self.put_variable_as(&[pointer, id, class, init], id, class),
        }
    }

    fn put_variable_as(&mut self, args: &[u32], id: u32, class: u32) -> Result<(), Memory>
        requires { variable_interface args.now ≡ (if class == storage_class.INPUT || class == storage_class.OUTPUT then id ∷ [] else []) }
        ensures ok { OnOk result (self.new ≡ self.old ++ record { op = op.VARIABLE; args = args.now } ∷ []) }
        ensures memory { OnErr result (self.new ≡ self.old) }
    {
        if class == storage_class::INPUT || class == storage_class::OUTPUT {
            self.put_interface(op::VARIABLE, args, id)
        } else {
            self.put_anew(op::VARIABLE, args)
        }
    }

    /// The ids of the input and output variables, in their order.
    pub fn interface(&self) -> &[u32]
        ensures { result.now ≡ interface_of self.now }
    {
        self.interface.as_slice()
    }

    /// No two of those that are declared once are the same.
    pub fn declared_once(&self)
        ensures { AreOnce self.now }
    {
        let _count = self.known.len();
    }

    /// The instructions.
    pub fn instrs(&self) -> &Instrs
        ensures { result.now ≡ self.now }
    {
        &self.instrs
    }
}
