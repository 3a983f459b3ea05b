//! What is declared before a unit.

ghost use Rattle.std.specs.Prelude.{◌≡◌, ◌∷◌, [], map, IfOk};
ghost use Rattle.gsl_check_heads.specs.Builtins as spec;

use gsl_base::{List, Memory, Stage, Text};
use gsl_check_decl::SoundEnv;
use gsl_check_expr::Env;
use gsl_names::{Entry, Names};
use gsl_tree::{Consts, StageVar};
use gsl_typing::Scene;
use gsl_values::Builtin;
use std::alloc::Global;

/// The built-in functions (GLSL 4.50, 8.3, 8.7 and 8.8).
const FUNCTIONS: [(&str, Entry); 21] = [
    ("abs", Entry::Builtin(Builtin::Abs)),
    ("sign", Entry::Builtin(Builtin::Sign)),
    ("min", Entry::Builtin(Builtin::Min)),
    ("max", Entry::Builtin(Builtin::Max)),
    ("clamp", Entry::Builtin(Builtin::Clamp)),
    ("mix", Entry::Builtin(Builtin::Mix)),
    ("lessThan", Entry::Builtin(Builtin::LessThan)),
    ("lessThanEqual", Entry::Builtin(Builtin::LessThanEqual)),
    ("greaterThan", Entry::Builtin(Builtin::GreaterThan)),
    (
        "greaterThanEqual",
        Entry::Builtin(Builtin::GreaterThanEqual),
    ),
    ("equal", Entry::Builtin(Builtin::Equal)),
    ("notEqual", Entry::Builtin(Builtin::NotEqual)),
    ("any", Entry::Builtin(Builtin::Any)),
    ("all", Entry::Builtin(Builtin::All)),
    ("not", Entry::Builtin(Builtin::Not)),
    ("bitCount", Entry::Builtin(Builtin::BitCount)),
    ("findLSB", Entry::Builtin(Builtin::FindLsb)),
    ("findMSB", Entry::Builtin(Builtin::FindMsb)),
    ("bitfieldReverse", Entry::Builtin(Builtin::BitfieldReverse)),
    ("bitfieldExtract", Entry::Builtin(Builtin::BitfieldExtract)),
    ("bitfieldInsert", Entry::Builtin(Builtin::BitfieldInsert)),
];

/// The built-in variables of a vertex shader (GL_KHR_vulkan_glsl).
const IN_VERTEX: [(&str, Entry); 2] = [
    ("gl_VertexIndex", Entry::Stage(StageVar::VertexIndex)),
    ("gl_InstanceIndex", Entry::Stage(StageVar::InstanceIndex)),
];

/// The built-in variables of a compute shader (GLSL 4.50, 7.1).
const IN_COMPUTE: [(&str, Entry); 6] = [
    ("gl_NumWorkGroups", Entry::Stage(StageVar::NumWorkGroups)),
    ("gl_WorkGroupID", Entry::Stage(StageVar::WorkGroupId)),
    (
        "gl_LocalInvocationID",
        Entry::Stage(StageVar::LocalInvocationId),
    ),
    (
        "gl_GlobalInvocationID",
        Entry::Stage(StageVar::GlobalInvocationId),
    ),
    (
        "gl_LocalInvocationIndex",
        Entry::Stage(StageVar::LocalInvocationIndex),
    ),
    ("gl_WorkGroupSize", Entry::Size),
];

/// Whether a row has a name.
fn is_among(mut rows: &[(&str, Entry)], name: &str) -> bool
    ensures { result ≡ spec.among (map (λ row. row.0.now) rows.entry.now) name.now }
{
    while let [row, more @ ..] = rows {
        if row.0 == name {
            return true;
        }
        rows = more;
    }
    false
}

/// Whether a name is that of a built-in function.
#[tactic(auto, unfolding(crate::specs::Builtins::names_function))]
pub fn names_function(name: &Text) -> bool
    ensures { result ≡ spec.names_function name.now }
{
    is_among(&FUNCTIONS, name.as_str())
}

/// Names with those of rows, the first of which is declared last.
fn with_rows(alloc: Global, rows: &[(&str, Entry)], names: Names) -> Result<Names, Memory>
    ensures { IfOk result (λ all. all ≡ spec.named (map (λ row. (row.0.now, row.1)) rows.now) names) }
{
    let mut names = names;
    let mut k = rows.len();
    while k > 0 {
        k -= 1;
        let text = Text::from_str(alloc, rows[k].0)?;
        names = names.with(alloc, text, rows[k].1)?;
    }
    Ok(names)
}

/// The names of the built-in variables of a stage.
fn with_variables(alloc: Global, stage: Stage, names: Names) -> Result<Names, Memory>
    ensures { IfOk result (λ all. all ≡ spec.named (spec.variables stage) names) }
{
    match stage {
        Stage::Vertex => with_rows(alloc, &IN_VERTEX, names),
        Stage::Fragment => Ok(names),
        Stage::Compute => with_rows(alloc, &IN_COMPUTE, names),
    }
}

/// The names of the built-in functions.
fn with_functions(alloc: Global, names: Names) -> Result<Names, Memory>
    ensures { IfOk result (λ all. all ≡ spec.named spec.functions names) }
{
    with_rows(alloc, &FUNCTIONS, names)
}

/// The names that are declared before a unit of a stage, and the scope of the unit.
fn first_names(alloc: Global, stage: Stage) -> Result<Names, Memory>
    ensures { IfOk result (λ names. names ≡ [] ∷ spec.built_in stage ∷ []) }
{
    let variables = with_variables(alloc, stage, Names::new(alloc))?;
    let all = with_functions(alloc, variables)?;
    all.opened()
}

/// Nothing is declared in a stage.
fn first_scene(alloc: Global, stage: Stage) -> Scene
    ensures { result ≡ (spec.begun_in stage).scene }
{
    Scene {
        stage,
        structs: List::new(alloc),
        globals: List::new(alloc),
        blocks: List::new(alloc),
        interfaces: List::new(alloc),
        prototypes: List::new(alloc),
        sizes: List::new(alloc),
        params: List::new(alloc),
        locals: List::new(alloc),
        consts: Consts {
            locals: List::new(alloc),
            globals: List::new(alloc),
        },
    }
}

/// In what the first declaration of a unit of a stage is checked.
pub fn begun_in(alloc: Global, stage: Stage) -> Result<SoundEnv, Memory>
    ensures { IfOk result (λ env. env ≡ spec.begun_in stage) }
{
    let names = first_names(alloc, stage)?;
    Ok(SoundEnv::new(
        alloc,
        Env {
            names,
            scene: first_scene(alloc, stage),
            heights: List::new(alloc),
        },
    ))
}
