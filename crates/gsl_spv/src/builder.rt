//! The builder, and the steps that its calls are made of.

ghost use Rattle.std.specs.Prelude.{◌≡◌, ◌+◌, ◌≤◌, ◌<◌, ◌↔◌, IsTrue, [], ◌∷◌, ◌++◌, Ok, Err, true, false, IfOk, None, OnOk, IfErr, option_to_list};

use crate::finishing::{append, head};
use crate::globals::Globals;
use crate::key::Key;
use crate::notes::{put_decoration, put_name};
use crate::refusal::{BuildRefusal, MOST_IDS};
use gsl_base::{Memory, Stage, Text};
use gsl_instr::op;
use gsl_words::{Args, Instrs, Module, Target};
use std::alloc::Global;
use std::marker::Model;

/// The number of instructions that a section stays below.
const MOST: usize = 1 << 32;

/// The sections of a module while it is made. After a call answered `Memory`, each call does.
#[derive(Drop)]
pub struct Builder {
    alloc: Global,
    stage: Stage,
    target: Target,
    set: Option<u32>,
    names: Instrs,
    decorations: Instrs,
    globals: Globals,
    functions: Instrs,
    last: u32,
    wanting: bool,
}

impl Model for Builder {
    ghost use Rattle.std.specs.Prelude.{◌≤◌};
    ghost use Rattle.gsl_spv.specs.Sections.{Sections};
    ghost use Rattle.gsl_spv.specs.Calls.{imports_of};
    ghost use Rattle.gsl_spv.specs.declared.refusal.TheConstants.{MOST_IDS};

    ghost Value = { Sections };

    ghost view = { λ b. record { stage = b.stage; target = b.target; imports = imports_of b.set; names = b.names; decorations = b.decorations; globals = b.globals; functions = b.functions; last = b.last; wanting = b.wanting } };

    ghost invariant = { λ b. b.last ≤ MOST_IDS };
}

impl Builder {
    ghost use Rattle.gsl_spv.specs.Sections.{empty};
    ghost use Rattle.gsl_spv.specs.Declarations.{declaration, defining, type_by};
    ghost use Rattle.gsl_spv.specs.Once.{IsOnce, IsAnew, key_of, id_of};
    ghost use Rattle.gsl_spv.specs.Calls as spec;
    ghost use Rattle.gsl_spv.specs.Calls.{Answers, Does, importing};
    ghost use Rattle.gsl_spv.specs.Growing.{AreOnce, Extends};
    ghost use Rattle.gsl_spv.specs.Finished.{AreFew, module_of};
    ghost use Rattle.gsl_spv.specs.declared.refusal.BuildRefusal.TheVariants.{TooManyIds, Memory as WantOfMemory};

    /// A builder of a module for a stage and a version, with no instruction and no id.
    pub fn new_for(alloc: Global, stage: Stage, target: Target) -> Result<Builder, Memory>
        ensures { result ≡ Ok (empty stage target) }
    {
        Ok(Builder {
            alloc,
            stage,
            target,
            set: None,
            names: Instrs::new(alloc),
            decorations: Instrs::new(alloc),
            globals: Globals::new(alloc),
            functions: Instrs::new(alloc),
            last: 0,
            wanting: false,
        })
    }

    /// A builder of a module of SPIR-V 1.0 for a stage.
    pub fn new(alloc: Global, stage: Stage) -> Result<Builder, Memory>
        ensures { result ≡ Ok (empty stage Target.V10) }
    {
        Builder::new_for(alloc, stage, Target::V10)
    }

    /// Keeps that memory was wanting.
    pub(crate) fn lost(&mut self) -> BuildRefusal
        ensures value { result ≡ WantOfMemory }
        ensures kept { self.new ≡ record self.old { wanting = true } }
    {
        self.wanting = true;
        BuildRefusal::Memory
    }

    /// The next id.
    #[tactic(auto, using(crate::proofs::Extending::extends_same, crate::proofs::Extending::extends_take))]
    pub fn id(&mut self) -> Result<u32, BuildRefusal>
        ensures answer { Answers self.old result self.new (spec.take self.old) }
        ensures full { result ≡ Err TooManyIds → self.new ≡ self.old }
        ensures grows { Extends self.old self.new }
    {
        if self.wanting {
            return Err(BuildRefusal::Memory);
        }
        if self.last >= MOST_IDS {
            return Err(BuildRefusal::TooManyIds);
        }
        self.last += 1;
        Ok(self.last)
    }

    /// The id of a declaration that is made once, which is added where it is not there.
    #[tactic(auto, using(crate::proofs::Interning::interned_found, crate::proofs::Interning::interned_absent))]
    pub(crate) fn intern(
        &mut self,
        op: u16,
        ty: Option<u32>,
        operands: &[u32],
    ) -> Result<u32, BuildRefusal>
        requires { IsOnce (declaration op ty operands.now) }
        ensures answer { Answers self.old result self.new (spec.intern (declaration op ty operands.now) self.old) }
        ensures full { result ≡ Err TooManyIds → self.new ≡ self.old }
        ensures grows { Extends self.old self.new }
    {
        if self.wanting {
            return Err(BuildRefusal::Memory);
        }
        let Ok(key) = Key::of(self.alloc, op, ty, operands) else {
            return Err(self.lost());
        };
        if let Some(id) = self.globals.find(&key) {
            return Ok(id);
        }
        let id = self.id()?;
        self.put_once(key, op, ty, id, operands)?;
        Ok(id)
    }

    /// Adds a declaration under an id that it is made once under.
    fn put_once(
        &mut self,
        key: Key,
        op: u16,
        ty: Option<u32>,
        id: u32,
        operands: &[u32],
    ) -> Result<(), BuildRefusal>
        requires once { IsOnce (declaration op ty operands.now) }
        requires key { key ≡ key_of (declaration op ty operands.now) }
        requires new { id_of (declaration op ty operands.now) self.old.globals ≡ None }
        ensures ok { OnOk result (self.new ≡ record self.old { globals = self.old.globals ++ defining (declaration op ty operands.now) id ∷ [] }) }
        ensures memory { IfErr result (λ refusal. (refusal ≡ WantOfMemory) × (self.new ≡ record self.old { wanting = true })) }
    {
        let Ok(args) = args_of(self.alloc, ty, id, operands) else {
            return Err(self.lost());
        };
        if self.globals.put_once(key, op, args.as_slice(), id).is_err() {
            return Err(self.lost());
        }
        Ok(())
    }

    /// Adds a declaration that may be made again, under a new id.
    pub(crate) fn declare(&mut self, op: u16, operands: &[u32]) -> Result<u32, BuildRefusal>
        requires { IsAnew (type_by op operands.now) }
        ensures answer { Answers self.old result self.new (spec.declare (type_by op operands.now) self.old) }
        ensures full { result ≡ Err TooManyIds → self.new ≡ self.old }
        ensures grows { Extends self.old self.new }
    {
        let id = self.id()?;
        let Ok(args) = args_of(self.alloc, None, id, operands) else {
            return Err(self.lost());
        };
        if self.globals.put_anew(op, args.as_slice()).is_err() {
            return Err(self.lost());
        }
        Ok(id)
    }

    /// The id of a type of functions, by the ids of the type that they return and of their parameters' types, which is
    /// declared where it is not there.
    pub fn function_type(&mut self, returned: u32, params: &[u32]) -> Result<u32, BuildRefusal>
        ensures answer { Answers self.old result self.new (spec.function_type returned params.now self.old) }
        ensures full { result ≡ Err TooManyIds → self.new ≡ self.old }
        ensures grows { Extends self.old self.new }
    {
        if self.wanting {
            return Err(BuildRefusal::Memory);
        }
        let Ok(operands) = args_of(self.alloc, None, returned, params) else {
            return Err(self.lost());
        };
        self.intern(op::TYPE_FUNCTION, None, operands.as_slice())
    }

    /// A new global variable, by the id of the type that points to it, its storage class and the id of its
    /// initialiser, if it has one.
    pub fn global(
        &mut self,
        pointer: u32,
        class: u32,
        init: Option<u32>,
    ) -> Result<u32, BuildRefusal>
        ensures answer { Answers self.old result self.new (spec.global pointer class init self.old) }
        ensures full { result ≡ Err TooManyIds → self.new ≡ self.old }
        ensures grows { Extends self.old self.new }
    {
        let id = self.id()?;
        if self.globals.put_variable(pointer, id, class, init).is_err() {
            return Err(self.lost());
        }
        Ok(id)
    }

    /// Decorates an id, or a member of it, with a literal where the decoration has one.
    pub fn decorate(
        &mut self,
        target: u32,
        member: Option<u32>,
        what: u32,
        literal: Option<u32>,
    ) -> Result<(), BuildRefusal>
        ensures answer { Does self.old result self.new (spec.decorate target member what literal self.old) }
        ensures grows { Extends self.old self.new }
    {
        if self.wanting {
            return Err(BuildRefusal::Memory);
        }
        if put_decoration(&mut self.decorations, target, member, what, literal).is_err() {
            return Err(self.lost());
        }
        Ok(())
    }

    /// Names an id, or a member of it, for debuggers.
    pub fn name(
        &mut self,
        target: u32,
        member: Option<u32>,
        text: &Text,
    ) -> Result<(), BuildRefusal>
        ensures answer { Does self.old result self.new (spec.name target member text.now self.old) }
        ensures grows { Extends self.old self.new }
    {
        if self.wanting {
            return Err(BuildRefusal::Memory);
        }
        if put_name(&mut self.names, target, member, text.as_str()).is_err() {
            return Err(self.lost());
        }
        Ok(())
    }

    /// The id of the import of GLSL's instructions.
    pub fn glsl_set(&mut self) -> Result<u32, BuildRefusal>
        ensures answer { Answers self.old result self.new (spec.glsl_set self.old) }
        ensures stands { IfOk result (λ id. self.new.imports ≡ importing id ∷ []) }
        ensures full { result ≡ Err TooManyIds → self.new ≡ self.old }
        ensures grows { Extends self.old self.new }
    {
        if self.wanting {
            return Err(BuildRefusal::Memory);
        }
        if let Some(id) = self.set {
            return Ok(id);
        }
        let id = self.id()?;
        self.set = Some(id);
        Ok(id)
    }

    /// Adds an instruction at the end of the functions.
    pub fn put(&mut self, op: u16, args: &[u32]) -> Result<(), BuildRefusal>
        ensures answer { Does self.old result self.new (spec.put op args.now self.old) }
        ensures grows { Extends self.old self.new }
    {
        if self.wanting {
            return Err(BuildRefusal::Memory);
        }
        if self.functions.put(op, args).is_err() {
            return Err(self.lost());
        }
        Ok(())
    }

    /// No two plain types, function types or constants of a builder are the same.
    pub fn declared_once(&self)
        ensures { AreOnce self.now.globals }
    {
        self.globals.declared_once();
    }

    /// Whether each section has fewer than 2^32 instructions.
    pub fn are_few(&self) -> bool
        ensures { IsTrue result ↔ AreFew self.now }
    {
        self.names.len() < MOST
            && self.decorations.len() < MOST
            && self.globals.instrs().len() < MOST
            && self.functions.len() < MOST
    }

    /// The module, whose entry point `main` is the function of this id. The size of a work group serves the
    /// compute stage alone.
    pub fn finish(self, main: u32, local_size: [u32; 3]) -> Result<Module, Memory>
        requires { AreFew self }
        ensures ok { IfOk result (λ m. (self.wanting ≡ false) × (m ≡ module_of self main local_size)) }
        ensures once { AreOnce self.globals }
    {
        self.globals.declared_once();
        if self.wanting {
            return Err(Memory);
        }
        let interface = self.globals.interface();
        let mut instrs = head(
            self.alloc, self.set, self.stage, main, interface, local_size,
        )?;
        append(&mut instrs, &self.names)?;
        append(&mut instrs, &self.decorations)?;
        append(&mut instrs, self.globals.instrs())?;
        append(&mut instrs, &self.functions)?;
        Ok(Module {
            version: self.target.version(),
            bound: self.last + 1,
            instrs,
        })
    }
}

/// The operands of an instruction that defines an id.
fn args_of(alloc: Global, ty: Option<u32>, id: u32, operands: &[u32]) -> Result<Args, Memory>
    ensures { IfOk result (λ args. args ≡ option_to_list ty ++ id ∷ operands.now) }
{
    let mut args = Args::new(alloc);
    if let Some(ty) = ty {
        args.push(ty)?;
    }
    args.push(id)?;
    args.extend_from_slice(operands)?;
    Ok(args)
}
