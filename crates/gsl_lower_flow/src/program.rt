//! The module of a program.

ghost use Rattle.std.specs.Prelude.{◌≡◌, ◌<◌, IfOk, Some, length, slice_get};
ghost use Rattle.gsl_lower_expr.specs.Coming.{setting_of};
ghost use Rattle.gsl_lower_holders.specs.Flow.{Does, flow_of};
ghost use Rattle.gsl_lower_needs.specs.Asking as asking;
ghost use Rattle.gsl_lower_flow.specs.Reaching.{is_among as is_among_heads, main_head};
ghost use Rattle.gsl_tree.specs.WellTyped.{IsProgram};
ghost use Rattle.gsl_words.specs.declared.target.Target.TheVariants.{V10};
ghost use Rattle.gsl_lower_flow.specs.Programs as spec;

use crate::declaring::declared;
use crate::functions::function_put;
use crate::reaching::{function_at, is_among, reached};
use gsl_base::{List, Memory};
use gsl_lower_expr::Lowerer;
use gsl_lower_holders::{FlowPlace, id_in};
use gsl_lower_needs::{Asker, Needs};
use gsl_shapes::Shapes;
use gsl_spv::{BuildRefusal, Builder};
use gsl_tree::{Function, Functions, Program};
use gsl_words::{Module, Target};
use indexmap::IndexSet;
use std::alloc::Global;

fn asked_if(asker: &Asker<'_>, asked: &mut Needs, lowered: bool, f: &Function) -> Result<(), Memory>
    ensures { asking.Does result asked.new (spec.asked_if lowered asker.now.prototypes.now f.now asked.old) }
{
    if !lowered {
        return Ok(());
    }
    asker.body(&f.body, asked)?;
    Ok(())
}

fn asked_all(
    asker: &Asker<'_>,
    asked: &mut Needs,
    functions: &Functions,
    main: u32,
    found: &IndexSet<u32>,
) -> Result<(), Memory>
    ensures { asking.Does result asked.new (spec.asked_all (is_among_heads found.now.keys main) asker.now.prototypes.now functions.now asked.old) }
{
    for k in 0..functions.len() {
        let f = function_at(functions, k);
        asked_if(asker, asked, is_among(found, main, f), f)?;
    }
    Ok(())
}

/// What the functions that are lowered ask for.
fn program_needs(
    alloc: Global,
    program: &Program,
    main: u32,
    found: &IndexSet<u32>,
) -> Result<Needs, Memory>
    ensures { IfOk result (λ l. l ≡ spec.asked_by (is_among_heads found.now.keys main) program.now) }
{
    let asker = Asker {
        alloc,
        prototypes: &program.prototypes,
    };
    let mut asked = List::new(alloc);
    asked_all(&asker, &mut asked, &program.functions, main, found)?;
    Ok(asked)
}

fn put_if(
    lowerer: &Lowerer<'_>,
    b: &mut Builder,
    p: &mut FlowPlace,
    lowered: bool,
    f: &Function,
) -> Result<(), BuildRefusal>
    ensures { Does result b.new p.new (spec.put_if lowered (setting_of lowerer.now.shapes.now lowerer.now.interfaces.now lowerer.now.prototypes.now) lowerer.now.prototypes.now f.now (flow_of b.old p.old)) }
{
    if !lowered {
        return Ok(());
    }
    function_put(lowerer, b, p, f)
}

fn functions_put(
    lowerer: &Lowerer<'_>,
    b: &mut Builder,
    p: &mut FlowPlace,
    functions: &Functions,
    main: u32,
    found: &IndexSet<u32>,
) -> Result<(), BuildRefusal>
    ensures { Does result b.new p.new (spec.functions_put (is_among_heads found.now.keys main) (setting_of lowerer.now.shapes.now lowerer.now.interfaces.now lowerer.now.prototypes.now) lowerer.now.prototypes.now functions.now (flow_of b.old p.old)) }
{
    for k in 0..functions.len() {
        let f = function_at(functions, k);
        put_if(lowerer, b, p, is_among(found, main, f), f)?;
    }
    Ok(())
}

/// The functions that are lowered.
fn all_put(
    alloc: Global,
    b: &mut Builder,
    p: &mut FlowPlace,
    program: &Program,
    main: u32,
    found: &IndexSet<u32>,
) -> Result<(), BuildRefusal>
    ensures { Does result b.new p.new (spec.functions_put (is_among_heads found.now.keys main) (spec.program_setting program.now) program.now.prototypes program.now.functions (flow_of b.old p.old)) }
{
    let shapes = Shapes::new(alloc, &program.structs)?;
    let lowerer = Lowerer {
        alloc,
        shapes: &shapes,
        interfaces: &program.interfaces,
        prototypes: &program.prototypes,
    };
    functions_put(&lowerer, b, p, &program.functions, main, found)
}

/// All of a program with these functions; and the id of its `main`.
fn put_by(
    alloc: Global,
    b: &mut Builder,
    target: Target,
    program: &Program,
    main: u32,
    found: &IndexSet<u32>,
) -> Result<u32, BuildRefusal>
    requires typed { IsProgram program.now }
    requires main { main ≡ main_head program.now }
    ensures { spec.Gives-id result b.new (spec.lowered_by (is_among_heads found.now.keys main) target program.now b.old) }
{
    let asked = program_needs(alloc, program, main, found)?;
    let mut p = declared(alloc, b, target, program, &asked)?;
    all_put(alloc, b, &mut p, program, main, found)?;
    match id_in(p.functions.as_slice(), main) {
        Some(id) => Ok(id),
        None => Err(BuildRefusal::Memory),
    }
}

/// All of a program; and the id of its `main`.
fn program_put(
    alloc: Global,
    b: &mut Builder,
    target: Target,
    program: &Program,
) -> Result<u32, BuildRefusal>
    requires { IsProgram program.now }
    ensures { spec.Gives-id result b.new (spec.lowered target program.now b.old) }
{
    if program.main as usize >= program.functions.len() {
        return Err(BuildRefusal::Memory);
    }
    let main = program.functions[program.main as usize].prototype;
    let found = reached(alloc, &program.functions, main)?;
    put_by(alloc, b, target, program, main, &found)
}

/// The module that a builder gives whose `main` has this id.
fn finished(b: Builder, main: u32, local_size: [u32; 3]) -> Result<Module, BuildRefusal>
    ensures { spec.Finishes b main local_size result }
{
    if !b.are_few() {
        return Err(BuildRefusal::Memory);
    }
    let module = b.finish(main, local_size)?;
    Ok(module)
}

/// The module of a program for a target: of version 1.0 or 1.3, with `main` and the functions that it reaches by calls.
#[tactic(auto, using(crate::proofs::Modules::answered, crate::proofs::Modules::refused))]
pub fn lower_for(alloc: Global, target: Target, program: &Program) -> Result<Module, BuildRefusal>
    requires { IsProgram program.now }
    ensures { spec.Answers target program.now result }
{
    let mut b = Builder::new_for(alloc, program.stage, target)?;
    match program_put(alloc, &mut b, target, program) {
        Ok(main) => finished(b, main, program.local_size),
        Err(refusal) => Err(refusal),
    }
}

/// The module of a program for version 1.0.
pub fn lower(alloc: Global, program: &Program) -> Result<Module, BuildRefusal>
    requires { IsProgram program.now }
    ensures { spec.Answers V10 program.now result }
{
    lower_for(alloc, Target::V10, program)
}
