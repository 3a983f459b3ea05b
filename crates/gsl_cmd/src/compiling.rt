//! Compiling: from the sources of a stage to the bytes of a module.

ghost use Rattle.std.specs.Prelude.{◌≡◌, ◌+◌, ◌<◌, ◌≤◌, ◌^◌, length, None, IfOk, IfSome, IfNone};
ghost use Rattle.gsl_base.specs.Checked.{Gives};
ghost use Rattle.gsl_words.specs.Bytes.{bytes_of};
ghost use Rattle.gsl_words.specs.Instructions.{HasFile};
ghost use Rattle.gsl_words.specs.declared.target.Target.TheVariants.{V10};
ghost use Rattle.gsl_form.specs.declared.program.Program.{Program};
ghost use Rattle.gsl_form.specs.Form.{IsProgram};
ghost use Rattle.gsl_cmd.specs.Lowering.{module_of};
ghost use Rattle.gsl_link.specs.Joined.{IsLinked};
ghost use Rattle.gsl_parse.specs.Fed.{unit_fed};
ghost use Rattle.gsl_pp.specs.Unit.{unit_of as given_out};
ghost use Rattle.gsl_tree.specs.WellTyped.{IsProgram as IsTyped};
ghost use Rattle.gsl_cmd.specs.Verdict.{Compiles, IsOfForm, Makes, MakesLinked, MakesOther, linked_behind, linked_of, too_long_from, tree_of, typed_from, typed_of, fault_in as first_line};

use crate::lowering::lower;
use gsl_base::{Bytes, Code, Fault, Memory, Place, Raws, Refusal, Sources, Stage};
use gsl_check::check;
use gsl_form::{Program, read_linked};
use gsl_lex::lex;
use gsl_link::link;
use gsl_lowered::lowered;
use gsl_parse::parse_feed;
use gsl_pp::Feed;
use gsl_syntax::Unit;
use gsl_tree::{Program as Linked, TypedUnit, TypedUnits};
use gsl_validate::Valid;
use gsl_words::{Module, Target, encode};
use std::alloc::Global;

/// The most bytes of a source file.
pub const MAX_SOURCE_BYTES: usize = 1_048_576;

/// The most source files.
pub const MAX_SOURCES: usize = 64;

/// The bytes of the module that the sources of a stage compile to, or their first fault.
///
/// The module keeps the rules V1 to V18. Where the program is of the form of which all is proved so far (`gsl_form`), it does what the program does
/// (`specs/Carries.antt`), has the buffer, its members and their names where `specs/Places.antt` says, and is no larger than `specs/Weight.antt` says; any other
/// program's is the one that it is lowered to (`gsl_lowered`).
///
/// `Refusal::Source` comes exactly where the sources have a fault: `E0900` of the first that is longer than `MAX_SOURCE_BYTES`, else that of
/// the first source in their order that the lexer, the preprocessor, the limit on nesting, the parser or the checker refuses, else that of
/// linking them, else `E0001` where the program that they make is lowered to no valid module.
pub fn compile(alloc: Global, stage: Stage, sources: &Sources) -> Result<Bytes, Refusal>
    requires { length sources.now ≤ MAX_SOURCES }
    ensures { Compiles V10 stage sources.now result }
{
    compile_for(alloc, Target::V10, stage, sources)
}

/// The same for a target: of version 1.0 or 1.3.
pub fn compile_for(
    alloc: Global,
    target: Target,
    stage: Stage,
    sources: &Sources,
) -> Result<Bytes, Refusal>
    requires { length sources.now ≤ MAX_SOURCES }
    ensures { Compiles target stage sources.now result }
{
    match compiled_module(alloc, target, stage, sources) {
        Ok(valid) => match file_of(alloc, valid.module()) {
            Ok(bytes) => Ok(bytes),
            Err(_) => Err(Refusal::Memory),
        },
        Err(refusal) => Err(refusal),
    }
}

/// The module that the sources of a stage compile to for a target, which is valid, or their first fault.
pub fn compiled_module(
    alloc: Global,
    target: Target,
    stage: Stage,
    sources: &Sources,
) -> Result<Valid, Refusal>
    requires { length sources.now ≤ MAX_SOURCES }
    ensures { Makes target stage sources.now result }
{
    match linked(alloc, stage, sources.as_slice()) {
        Ok(program) => module_linked(alloc, target, stage, &program),
        Err(refusal) => Err(refusal),
    }
}

/// The program that the sources make, or their first fault. It is well typed, and has no fault of linking as one unit.
pub fn linked(alloc: Global, stage: Stage, sources: &[Bytes]) -> Result<Linked, Refusal>
    requires { length sources.now ≤ MAX_SOURCES }
    ensures made { Gives result (linked_of stage sources.now) }
    ensures linked { IfOk result IsLinked }
{
    match first_long(0, sources) {
        Some(unit) => Err(Refusal::Source(fault_in(unit, Code::E0900))),
        None => linked_from(alloc, stage, sources),
    }
}

/// The number of the first source that is too long, where they are numbered from this one on.
fn first_long(unit: u32, sources: &[Bytes]) -> Option<u32>
    requires { unit + length sources.now ≤ MAX_SOURCES }
    ensures { result ≡ too_long_from unit sources.now }
{
    match sources {
        [] => None,
        [source, more @ ..] => {
            if source.len() > MAX_SOURCE_BYTES {
                return Some(unit);
            }
            first_long(unit + 1, more)
        }
    }
}

/// The program of sources of which none is too long, or their first fault.
fn linked_from(alloc: Global, stage: Stage, sources: &[Bytes]) -> Result<Linked, Refusal>
    requires few { length sources.now ≤ MAX_SOURCES }
    requires short { too_long_from 0 sources.now ≡ None }
    ensures made { Gives result (linked_behind stage (typed_from stage 0 sources.now)) }
    ensures linked { IfOk result IsLinked }
{
    let units = typed_all(alloc, stage, sources)?;
    link(alloc, stage, units)
}

/// The typed units of the sources, or the first fault.
fn typed_all(alloc: Global, stage: Stage, sources: &[Bytes]) -> Result<TypedUnits, Refusal>
    requires few { length sources.now ≤ MAX_SOURCES }
    requires short { too_long_from 0 sources.now ≡ None }
    ensures { Gives result (typed_from stage 0 sources.now) }
{
    let mut units = TypedUnits::new(alloc);
    for k in 0..sources.len() {
        let unit = typed(alloc, stage, k as u32, sources[k].as_slice())?;
        units.push(unit)?;
    }
    Ok(units)
}

/// The typed unit of the source file of this number, or its first fault.
#[tactic(auto, unfolding(crate::specs::Verdict::typed_of))]
fn typed(alloc: Global, stage: Stage, number: u32, source: &[u8]) -> Result<TypedUnit, Refusal>
    requires { length source.now < 2 ^ 32 }
    ensures { Gives result (typed_of stage number source.now) }
{
    let tree = tree(alloc, number, source)?;
    check(alloc, stage, tree.as_slice())
}

/// The tree of the source file of this number, or its first fault. No list of its live tokens is made, and each raw one is given up as
/// it is drawn.
#[tactic(auto, unfolding(crate::specs::Verdict::tree_of, crate::specs::Verdict::tokens_of, gsl_pp::specs::Unit::preprocessed, gsl_parse::specs::Fed::unit_fed))]
fn tree(alloc: Global, number: u32, source: &[u8]) -> Result<Unit, Refusal>
    requires { length source.now < 2 ^ 32 }
    ensures { Gives result (tree_of number source.now) }
{
    let raws = lex(alloc, number, source)?;
    tree_from(alloc, number, raws)
}

/// The tree of a file's raw tokens, or the first fault of the preprocessor or the parser.
fn tree_from(alloc: Global, number: u32, raws: Raws) -> Result<Unit, Refusal>
    ensures { Gives result (unit_fed (given_out number raws)) }
{
    let feed = Feed::new(alloc, number, raws)?;
    parse_feed(alloc, feed)
}

/// The module of a linked program, or `E0001` where it has none.
fn module_linked(
    alloc: Global,
    target: Target,
    stage: Stage,
    linked: &Linked,
) -> Result<Valid, Refusal>
    requires { IsTyped linked.now }
    ensures { MakesLinked target stage linked.now result }
{
    match accepted(alloc, target, stage, linked)? {
        None => module_lowered(alloc, target, linked),
        Some(program) => Ok(valid_of(alloc, &program)?),
    }
}

/// The valid module that a linked program is lowered to, or `E0001` where there is none.
fn module_lowered(alloc: Global, target: Target, linked: &Linked) -> Result<Valid, Refusal>
    requires { IsTyped linked.now }
    ensures { MakesOther target linked.now result }
{
    match lowered(alloc, target, linked)? {
        Some(valid) => Ok(valid),
        None => Err(Refusal::Source(fault_in(0, Code::E0001))),
    }
}

/// The program of the form that a linked program spells, or `None` where it has none of this stage for this target.
fn accepted(
    alloc: Global,
    target: Target,
    stage: Stage,
    linked: &Linked,
) -> Result<Option<Program>, Memory>
    ensures found { IfOk result (λ found. IfSome found (λ p. IsOfForm target stage linked.now p)) }
    ensures none { IfOk result (λ found. IfNone found ((p : Program) → IsOfForm target stage linked.now p → ⊥)) }
{
    match target {
        Target::V10 => accepted_first(alloc, stage, linked),
        Target::V13 => Ok(None),
    }
}

/// The same for version 1.0.
fn accepted_first(alloc: Global, stage: Stage, linked: &Linked) -> Result<Option<Program>, Memory>
    ensures found { IfOk result (λ found. IfSome found (λ p. IsOfForm V10 stage linked.now p)) }
    ensures none { IfOk result (λ found. IfNone found ((p : Program) → IsOfForm V10 stage linked.now p → ⊥)) }
{
    match stage {
        Stage::Compute => read_linked(alloc, linked),
        Stage::Vertex | Stage::Fragment => Ok(None),
    }
}

/// The fault of this code at the first line of a unit.
pub fn fault_in(unit: u32, code: Code) -> Fault
    ensures { result ≡ first_line unit code }
{
    Fault {
        place: Place { unit, line: 1 },
        code,
    }
}

/// A program's module, which is valid by how it was made.
fn valid_of(alloc: Global, program: &Program) -> Result<Valid, Memory>
    requires { IsProgram program.now }
    ensures { IfOk result (λ valid. valid ≡ module_of program.now) }
{
    let module = lower(alloc, program)?;
    Valid::from_proved(alloc, module)
}

/// The file of a module.
fn file_of(alloc: Global, of: &Module) -> Result<Bytes, Memory>
    requires { HasFile of.now }
    ensures { IfOk result (λ bytes. bytes ≡ bytes_of of.now) }
{
    let mut bytes = Bytes::new(alloc);
    encode(of, &mut bytes)?;
    Ok(bytes)
}
