//! The module of the sections.

ghost use Rattle.std.specs.Prelude.{◌≡◌, ◌^◌, ◌<◌, [], ◌∷◌, ◌++◌, length, IfOk, OnOk};
ghost use Rattle.gsl_spv.specs.Calls.{imports_of};
ghost use Rattle.gsl_spv.specs.Finished as spec;

use gsl_base::{Memory, Stage};
use gsl_instr::enumerant::{capability, execution_mode, execution_model, memory_model};
use gsl_instr::{op, push_string};
use gsl_words::{Args, Instrs};
use std::alloc::Global;

/// What stands before the names: capability, import, memory model, entry point and modes.
pub fn head(
    alloc: Global,
    set: Option<u32>,
    stage: Stage,
    main: u32,
    interface: &[u32],
    local_size: [u32; 3],
) -> Result<Instrs, Memory>
    ensures { IfOk result (λ code. code ≡ spec.capabilities ++ imports_of set ++ spec.memory_models ++ spec.entry_point stage main interface.now ∷ [] ++ spec.modes stage main local_size) }
{
    let mut code = Instrs::new(alloc);
    code.put(op::CAPABILITY, &[capability::SHADER])?;
    put_import(&mut code, set)?;
    code.put(
        op::MEMORY_MODEL,
        &[memory_model::LOGICAL, memory_model::GLSL450],
    )?;
    let operands = entry_operands(alloc, stage, main, interface)?;
    code.put(op::ENTRY_POINT, operands.as_slice())?;
    put_modes(&mut code, stage, main, local_size)?;
    Ok(code)
}

/// Adds the import of GLSL's instructions, if there is one.
fn put_import(code: &mut Instrs, set: Option<u32>) -> Result<(), Memory>
    ensures { OnOk result (code.new ≡ code.old ++ imports_of set) }
{
    match set {
        None => Ok(()),
        Some(id) => code.put_text(op::EXT_INST_IMPORT, &[id], "GLSL.std.450"),
    }
}

/// The operands of the entry point.
fn entry_operands(alloc: Global, stage: Stage, main: u32, interface: &[u32]) -> Result<Args, Memory>
    ensures { IfOk result (λ args. args ≡ (spec.entry_point stage main interface.now).args) }
{
    let mut args = Args::from_slice(alloc, &[model_of(stage), main])?;
    push_string(&mut args, "main")?;
    args.extend_from_slice(interface)?;
    Ok(args)
}

fn model_of(stage: Stage) -> u32
    ensures { result ≡ spec.model_of stage }
{
    match stage {
        Stage::Vertex => execution_model::VERTEX,
        Stage::Fragment => execution_model::FRAGMENT,
        Stage::Compute => execution_model::GL_COMPUTE,
    }
}

/// Adds the modes of a stage.
fn put_modes(code: &mut Instrs, stage: Stage, main: u32, size: [u32; 3]) -> Result<(), Memory>
    ensures { OnOk result (code.new ≡ code.old ++ spec.modes stage main size) }
{
    match stage {
        Stage::Vertex => Ok(()),
        Stage::Fragment => {
            code.put(
                op::EXECUTION_MODE,
                &[main, execution_mode::ORIGIN_UPPER_LEFT],
            )
        }
        Stage::Compute => {
            let [x, y, z] = size;
            code.put(
                op::EXECUTION_MODE,
                &[main, execution_mode::LOCAL_SIZE, x, y, z],
            )
        }
    }
}

/// Adds the instructions of a section.
pub fn append(code: &mut Instrs, section: &Instrs) -> Result<(), Memory>
    requires { length section.now < 2 ^ 32 }
    ensures { OnOk result (code.new ≡ code.old ++ section.now) }
{
    for i in 0..section.len() as u32 {
        code.put(section.op(i), section.args(i))?;
    }
    Ok(())
}
