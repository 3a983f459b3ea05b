//! What is declared so far, with what is known of it.

ghost use Rattle.std.specs.Prelude.{◌≡◌, ◌<◌, ◌++◌, ◌∷◌, [], length, IfOk, IsTrue, OnOk};
ghost use Rattle.std.specs.List.{AllByRecursion};
ghost use Rattle.gsl_types.specs.Known.{AreStructs, IsSound};
ghost use Rattle.gsl_types.specs.declared.ty.Member.{Member as OneMember};
ghost use Rattle.gsl_layout.specs.Extents.{ArePlain, plain};
ghost use Rattle.gsl_makers.specs.Heights.{AreHeights};
ghost use Rattle.gsl_names.specs.declared.entry.Entry.TheVariants as entry;
ghost use Rattle.gsl_names.specs.Scopes.{declare as declare_in, all_of};
ghost use Rattle.gsl_check_decl.specs.Steps as steps;
ghost use Rattle.gsl_check_decl.specs.Locals as locals;
ghost use Rattle.gsl_check_decl.specs.Structs as structs;
ghost use Rattle.gsl_check_decl.specs.Globals as globals;
ghost use Rattle.gsl_check_decl.specs.Tables as tables;

use crate::heads::head_key;
use gsl_base::{List, Memory, Text};
use gsl_check_expr::Env;
use gsl_names::{Entries, Entry, Names};
use gsl_tree::{
    Block, BlockMember, Folded, Foldeds, GlobalVar, Interface, LocalSize, Params, Prototype,
};
use gsl_types::{Members, StructType, Structs, Ty, Types, next_struct};
use std::alloc::Global;
use std::marker::Model;
use std::mem::replace;

/// What an expression or a statement is checked in: a scope is open, and the structs are well formed, have plain members, and have their
/// heights beside them. The heads of functions are found by a table. Contracts see the `Env`.
#[derive(Drop)]
pub struct SoundEnv {
    env: Env,
    /// The heads of functions by their keys, in one scope.
    heads: Names,
}

impl Model for SoundEnv {
    ghost use Rattle.std.specs.Prelude.{◌≡◌, ◌<◌, ◌∷◌, [], length};
    ghost use Rattle.gsl_check_decl.specs.Tables.{heads_above};
    ghost use Rattle.gsl_types.specs.Known.{AreStructs};
    ghost use Rattle.gsl_layout.specs.Extents.{ArePlain};
    ghost use Rattle.gsl_makers.specs.Heights.{AreHeights};
    ghost use Rattle.gsl_check_expr.specs.declared.env.Env.{Env as Seen};
    ghost use Rattle.gsl_check_expr.specs.contracts.env.Env.{the_row};

    ghost Value = { Seen };

    ghost coded = { the_row.coded };

    ghost view = { λ s. s.env };

    ghost invariant = { λ s. AreStructs s.env.scene.structs × ArePlain s.env.scene.structs × AreHeights s.env.scene.structs s.env.heights × (length s.env.heights ≡ length s.env.scene.structs) × (0 < length s.env.names) × (s.heads ≡ heads_above 0 [] s.env.scene.prototypes ∷ []) };
}

/// What stands around the body of a function: the parameters and local variables before it, and what is known of these.
#[derive(Drop)]
pub struct Outside {
    pub params: Params,
    pub locals: Types,
    pub known: Foldeds,
}

/// The number of what stands behind so many others. What no word counts has no room.
pub fn number_behind(count: usize) -> Result<u32, Memory>
    ensures { IfOk result (λ number. number ≡ count) }
{
    if count > u32::MAX as usize {
        return Err(Memory);
    }
    Ok(count as u32)
}

impl SoundEnv {
    /// What is declared, where a scope is open, no function has a head, and the structs are well formed, have plain members, and have their
    /// heights beside them.
    #[tactic(auto, unfolding(crate::specs::Tables::heads_above))]
    pub fn new(alloc: Global, env: Env) -> SoundEnv
        requires known { AreStructs env.scene.structs }
        requires plain { ArePlain env.scene.structs }
        requires heights { AreHeights env.scene.structs env.heights }
        requires count { length env.heights ≡ length env.scene.structs }
        requires scopes { 0 < length env.names }
        requires heads { env.scene.prototypes ≡ [] }
        ensures { result ≡ env }
    {
        SoundEnv {
            env,
            heads: Names::new(alloc),
        }
    }

    /// What is declared, to be looked at.
    pub fn get(&self) -> &Env
        ensures is { result.now ≡ self.now }
        ensures known { AreStructs result.now.scene.structs }
        ensures plain { ArePlain result.now.scene.structs }
        ensures heights { AreHeights result.now.scene.structs result.now.heights }
        ensures scopes { 0 < length result.now.names }
    {
        &self.env
    }

    /// What is declared.
    pub fn into_env(self) -> Env
        ensures is { result ≡ self }
        ensures known { AreStructs result.scene.structs }
        ensures plain { ArePlain result.scene.structs }
        ensures heights { AreHeights result.scene.structs result.heights }
    {
        let SoundEnv { env, .. } = self;
        env
    }

    /// Opens a scope.
    pub fn open(&mut self, alloc: Global) -> Result<(), Memory>
        ensures is { OnOk result (self.new ≡ steps.opened self.old) }
        ensures scopes { 0 < length self.old.names }
    {
        let names = replace(&mut self.env.names, Names::new(alloc));
        self.env.names = names.opened()?;
        Ok(())
    }

    /// Ends the innermost scope.
    pub fn close(&mut self, alloc: Global)
        ensures { self.new ≡ steps.closed self.old }
    {
        let names = replace(&mut self.env.names, Names::new(alloc));
        self.env.names = ended(names);
    }

    /// Declares a name in the innermost scope.
    #[tactic(auto, using(crate::proofs::Scoping::declared_is_open))]
    fn declare(&mut self, alloc: Global, name: &Text, entry: Entry) -> Result<(), Memory>
        ensures { OnOk result (self.new ≡ record self.old { names = declare_in name.now entry self.old.names }) }
    {
        let name = Text::from_str(alloc, name.as_str())?;
        let names = replace(&mut self.env.names, Names::new(alloc));
        self.env.names = names.with(alloc, name, entry)?;
        Ok(())
    }

    /// Declares a local variable: its name, its type, and what is known of its value. The answer is its number.
    #[tactic(auto, unfolding(crate::specs::Locals::with_local))]
    pub fn declare_local(
        &mut self,
        alloc: Global,
        fixed: bool,
        name: &Text,
        ty: Ty,
        folded: Folded,
    ) -> Result<u32, Memory>
        ensures { IfOk result (λ number. (number ≡ length self.old.scene.locals) × (self.new ≡ locals.with_local fixed name.now ty folded self.old)) }
    {
        let number = number_behind(self.env.scene.locals.len())?;
        self.env.scene.locals.push(ty)?;
        self.env.scene.consts.locals.push(folded)?;
        self.declare(alloc, name, Entry::Local(number, fixed))?;
        Ok(number)
    }

    /// Declares a global variable, of which so much is known.
    #[tactic(auto, unfolding(crate::specs::Globals::with_global))]
    pub fn declare_global(
        &mut self,
        alloc: Global,
        next: GlobalVar,
        folded: Folded,
    ) -> Result<(), Memory>
        ensures { OnOk result (self.new ≡ globals.with_global next folded self.old) }
    {
        let number = number_behind(self.env.scene.globals.len())?;
        self.declare(alloc, &next.name, Entry::Global(number))?;
        self.env.scene.globals.push(next)?;
        self.env.scene.consts.globals.push(folded)?;
        Ok(())
    }

    /// Declares an input or output.
    #[tactic(auto, unfolding(crate::specs::Globals::with_interface))]
    pub fn declare_interface(&mut self, alloc: Global, next: Interface) -> Result<(), Memory>
        ensures { OnOk result (self.new ≡ globals.with_interface next self.old) }
    {
        let number = number_behind(self.env.scene.interfaces.len())?;
        self.declare(alloc, &next.name, Entry::Interface(number))?;
        self.env.scene.interfaces.push(next)?;
        Ok(())
    }

    /// Declares a function by its first head. The answer is its number.
    #[tactic(auto, unfolding(crate::specs::Globals::with_head))]
    pub fn declare_head(&mut self, alloc: Global, next: Prototype) -> Result<u32, Memory>
        ensures { IfOk result (λ number. (number ≡ length self.old.scene.prototypes) × (self.new ≡ globals.with_head next self.old)) }
    {
        let number = number_behind(self.env.scene.prototypes.len())?;
        let key = head_key(alloc, &next.name, next.params.as_slice())?;
        self.declare(alloc, &next.name, Entry::Function(number))?;
        self.push_head(alloc, number, key, next)?;
        Ok(number)
    }

    /// Puts a head behind the others, and in the table. For want of memory all heads are given up, so that the table tells of them.
    #[tactic(auto, using(crate::proofs::Tabled::head_behind), unfolding(crate::specs::Tables::heads_above))]
    fn push_head(
        &mut self,
        alloc: Global,
        number: u32,
        key: Text,
        next: Prototype,
    ) -> Result<(), Memory>
        requires number { number ≡ length self.old.scene.prototypes }
        requires key { key ≡ tables.head_key next.name next.params }
        ensures { OnOk result (self.new ≡ record self.old { scene = record self.old.scene { prototypes = self.old.scene.prototypes ++ next ∷ [] } }) }
    {
        self.env.scene.prototypes.push(next)?;
        let heads = replace(&mut self.heads, Names::new(alloc));
        match heads.with(alloc, key, Entry::Function(number)) {
            Ok(heads) => {
                self.heads = heads;
                Ok(())
            }
            Err(Memory) => {
                self.env.scene.prototypes = List::new(alloc);
                Err(Memory)
            }
        }
    }

    /// What the heads of a key stand for, the last one first.
    pub fn heads_of(&self, alloc: Global, key: &Text) -> Result<Entries, Memory>
        ensures { IfOk result (λ entries. entries ≡ all_of (tables.heads_above 0 [] self.now.scene.prototypes ∷ []) key.now) }
    {
        self.heads.find_all(alloc, key)
    }

    /// Declares the size of the work group.
    pub fn declare_size(&mut self, next: LocalSize) -> Result<(), Memory>
        ensures { OnOk result (self.new ≡ record self.old { scene = record self.old.scene { sizes = self.old.scene.sizes ++ next ∷ [] } }) }
    {
        self.env.scene.sizes.push(next)
    }

    /// Declares the name of a parameter in the innermost scope.
    pub fn declare_param(
        &mut self,
        alloc: Global,
        number: u32,
        fixed: bool,
        name: &Text,
    ) -> Result<(), Memory>
        ensures { OnOk result (self.new ≡ record self.old { names = declare_in name.now (entry.Param number fixed) self.old.names }) }
    {
        self.declare(alloc, name, Entry::Param(number, fixed))
    }

    /// Begins the body of a function of these parameters: it has no local variables yet.
    pub fn begin_body(&mut self, alloc: Global, params: Params) -> Outside
        ensures is { self.new ≡ record self.old { scene = record self.old.scene { params = params; locals = []; consts = record self.old.scene.consts { locals = [] } } } }
        ensures outside { result ≡ record { params = self.old.scene.params; locals = self.old.scene.locals; known = self.old.scene.consts.locals } }
    {
        Outside {
            params: replace(&mut self.env.scene.params, params),
            locals: replace(&mut self.env.scene.locals, List::new(alloc)),
            known: replace(&mut self.env.scene.consts.locals, List::new(alloc)),
        }
    }

    /// Ends the body of a function. The answer has the types of its local variables.
    pub fn end_body(&mut self, outside: Outside) -> Types
        ensures is { self.new ≡ record self.old { scene = record self.old.scene { params = outside.params; locals = outside.locals; consts = record self.old.scene.consts { locals = outside.known } } } }
        ensures locals { result ≡ self.old.scene.locals }
    {
        let Outside {
            params,
            locals,
            known,
        } = outside;
        self.env.scene.params = params;
        self.env.scene.consts.locals = known;
        replace(&mut self.env.scene.locals, locals)
    }

    /// Declares a block, and its instance name or the names of its members.
    #[tactic(auto, unfolding(crate::specs::Globals::with_block))]
    pub fn declare_block(&mut self, alloc: Global, next: Block) -> Result<(), Memory>
        ensures { OnOk result (self.new ≡ globals.with_block next self.old) }
    {
        let number = number_behind(self.env.scene.blocks.len())?;
        self.declare(alloc, &next.name, Entry::Block(number))?;
        let names = replace(&mut self.env.names, Names::new(alloc));
        self.env.names = inner_names(alloc, names, number, &next)?;
        self.env.scene.blocks.push(next)?;
        Ok(())
    }

    /// Puts a struct behind the others, and its height beside it.
    fn push_struct(&mut self, next: StructType, height: u32) -> Result<(), Memory>
        requires known { AreStructs (self.old.scene.structs ++ next ∷ []) }
        requires plain { AllByRecursion (λ (member : OneMember). IsTrue (plain member.ty)) next.members }
        requires height { height ≡ structs.height_over self.old.scene.structs next.members }
        ensures { OnOk result (self.new ≡ record self.old { scene = record self.old.scene { structs = self.old.scene.structs ++ next ∷ [] }; heights = self.old.heights ++ height ∷ [] }) }
    {
        let count = self.env.heights.len();
        self.env.heights.push(height)?;
        match self.env.scene.structs.push(next) {
            Ok(()) => Ok(()),
            Err(Memory) => {
                self.env.heights.truncate(count);
                Err(Memory)
            }
        }
    }

    /// Declares a struct: its name, its members, and how high it is. The answer is its number.
    #[tactic(auto, unfolding(crate::specs::Structs::with_struct))]
    pub fn declare_struct(
        &mut self,
        alloc: Global,
        name: &Text,
        members: Members,
        height: u32,
    ) -> Result<u32, Memory>
        requires some { 0 < length members }
        requires sound { AllByRecursion (λ (member : OneMember). IsSound (length self.old.scene.structs) member.ty) members }
        requires plain { AllByRecursion (λ (member : OneMember). IsTrue (plain member.ty)) members }
        requires height { height ≡ structs.height_over self.old.scene.structs members }
        ensures { IfOk result (λ number. (number ≡ length self.old.scene.structs) × (self.new ≡ structs.with_struct name.now members self.old)) }
    {
        let number = number_behind(self.env.scene.structs.len())?;
        let text = Text::from_str(alloc, name.as_str())?;
        let next = struct_behind(&self.env.scene.structs, text, members);
        self.push_struct(next, height)?;
        self.declare(alloc, name, Entry::Struct(number))?;
        Ok(number)
    }
}

/// Names with those of a block's members.
fn members_named(
    alloc: Global,
    block: u32,
    members: &[BlockMember],
    names: Names,
) -> Result<Names, Memory>
    ensures { IfOk result (λ all. all ≡ globals.members_named block 0 members.now names) }
{
    let mut names = names;
    for k in 0..members.len() {
        let number = number_behind(k)?;
        let name = Text::from_str(alloc, members[k].name.as_str())?;
        names = names.with(alloc, name, Entry::Member(block, number))?;
    }
    Ok(names)
}

/// Names with those that a block declares besides its own.
fn inner_names(alloc: Global, names: Names, number: u32, block: &Block) -> Result<Names, Memory>
    ensures { IfOk result (λ all. all ≡ globals.inner_names number block.now block.now.instance names) }
{
    match &block.instance {
        None => members_named(alloc, number, block.members.as_slice(), names),
        Some(instance) => {
            let name = Text::from_str(alloc, instance.as_str())?;
            names.with(alloc, name, Entry::Instance(number))
        }
    }
}

/// The struct of a name and members that stands next behind some structs.
#[tactic(auto, using(crate::proofs::Longer::next_is))]
pub fn struct_behind(all: &Structs, name: Text, members: Members) -> StructType
    requires known { AreStructs all.now }
    requires some { 0 < length members }
    requires sound { AllByRecursion (λ (member : OneMember). IsSound (length all.now) member.ty) members }
    ensures is { result ≡ structs.struct_of all.now name members }
    ensures members { result.members ≡ members }
    ensures known { AreStructs (all.now ++ result ∷ []) }
{
    next_struct(all, name, members)
}

/// Names behind the end of their innermost scope.
#[tactic(auto, using(crate::proofs::Scoping::ended_is_open))]
fn ended(names: Names) -> Names
    ensures is { result ≡ steps.ended names }
    ensures scopes { 0 < length names → 0 < length result }
{
    if names.is_nested() {
        names.closed()
    } else {
        names
    }
}
