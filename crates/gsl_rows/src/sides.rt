//! A shader and its module, run side by side by the slow programs.

ghost use Rattle.std.specs.Prelude.{◌≡◌, [], IfOk, IfSome, Ok};
ghost use Rattle.gsl_cmd.specs.Fits.{fits};
ghost use Rattle.gsl_form.specs.Form.{IsProgram};

use crate::running::dump;
use crate::sources::source_tree;
use gsl_base::{
    Buffer, Buffers, Bytes, Choices32, Input, InputRefusal, Ins, Memory, Output, Refusal, Stage,
};
use gsl_check::check;
use gsl_cmd::lower;
use gsl_form::{Program, read_unit};
use gsl_outline::{Done, Outline};
use gsl_slow::{SlowRun, fits_shader, run_module, run_shader};
use gsl_tree::TypedUnit;
use gsl_words::Module;
use std::alloc::Global;

/// More instructions than any of these shaders' modules takes.
const STEPS: u32 = 1000;

fn buffers(alloc: Global, buffer: &Option<(u32, Bytes)>) -> Result<Buffers, Memory> {
    let mut buffers = Buffers::new(alloc);
    if let Some((binding, bytes)) = buffer {
        let bytes = Bytes::from_slice(alloc, bytes.as_slice())?;
        buffers.push(Buffer {
            set: 0,
            binding: *binding,
            bytes,
        })?;
    }
    Ok(buffers)
}

/// An input with one buffer at set 0.
fn input(alloc: Global, buffer: &Option<(u32, Bytes)>) -> Result<Input, Memory>
    ensures { IfOk result (λ input. input.choices ≡ []) }
{
    let buffers = buffers(alloc, buffer)?;
    Ok(Input {
        buffers,
        push: None,
        ins: Ins::new(alloc),
        group: [0, 0, 0],
        local: [0, 0, 0],
        groups: [1, 1, 1],
        vertex: 0,
        instance: 0,
        choices: Choices32::new(alloc),
    })
}

/// The typed unit of a compute shader's source.
fn typed(alloc: Global, source: &[u8]) -> Result<TypedUnit, Refusal> {
    let tree = source_tree(alloc, source)?;
    check(alloc, Stage::Compute, tree.as_slice())
}

/// The program of a source, if it has one.
fn program(alloc: Global, source: &[u8]) -> Result<Option<Program>, Memory>
    ensures { IfOk result (λ found. IfSome found IsProgram) }
{
    match typed(alloc, source) {
        Ok(unit) => read_unit(alloc, &unit),
        Err(Refusal::Source(_)) => Ok(None),
        Err(Refusal::Memory) => Err(Memory),
    }
}

/// Prints what a shader does on a buffer, and what its module does.
pub fn sides(
    alloc: Global,
    out: &mut Outline,
    source: &[u8],
    buffer: &Option<(u32, Bytes)>,
) -> Done {
    match program(alloc, source)? {
        None => out.put("no program\n"),
        Some(program) => both_sides(alloc, out, &program, buffer),
    }
}

fn both_sides(
    alloc: Global,
    out: &mut Outline,
    program: &Program,
    buffer: &Option<(u32, Bytes)>,
) -> Done
    requires { IsProgram program.now }
{
    let input = input(alloc, buffer)?;
    match fits_shader(program, &input) {
        Err(refusal) => refused(out, refusal),
        Ok(()) => {
            shader_side(alloc, out, program, input)?;
            module_side(alloc, out, program, buffer)
        }
    }
}

fn shader_side(alloc: Global, out: &mut Outline, program: &Program, input: Input) -> Done
    requires form { IsProgram program.now }
    requires fits { fits program.now input ≡ Ok tt }
    requires choices { input.choices ≡ [] }
{
    let output = run_shader(alloc, program, input)?;
    out.put("shader ")?;
    ended(out, &output)
}

fn module_side(
    alloc: Global,
    out: &mut Outline,
    program: &Program,
    buffer: &Option<(u32, Bytes)>,
) -> Done
    requires { IsProgram program.now }
{
    let module = lower(alloc, program)?;
    run_side(alloc, out, &module, buffer)
}

fn run_side(
    alloc: Global,
    out: &mut Outline,
    module: &Module,
    buffer: &Option<(u32, Bytes)>,
) -> Done {
    let input = input(alloc, buffer)?;
    let ran = run_module(alloc, module, input, STEPS)?;
    out.put("module ")?;
    put_ran(out, &ran)
}

fn put_ran(out: &mut Outline, ran: &SlowRun) -> Done {
    match ran {
        SlowRun::Ended(output) => ended(out, output),
        SlowRun::Going => out.put("going\n"),
        SlowRun::Strayed(_) => out.put("strayed\n"),
        SlowRun::Stuck => out.put("stuck\n"),
    }
}

fn ended(out: &mut Outline, output: &Output) -> Done {
    out.put("ended\n")?;
    for buffer in output.buffers.as_slice() {
        dump(out, buffer.bytes.as_slice())?;
    }
    Ok(())
}

fn refused(out: &mut Outline, refusal: InputRefusal) -> Done {
    match refusal {
        InputRefusal::NoBuffer(_, _) => out.put("refused: no buffer\n"),
        InputRefusal::TooShort(_, _) => out.put("refused: buffer too short\n"),
        InputRefusal::NoPush => out.put("refused: no push constants\n"),
        InputRefusal::PushShort => out.put("refused: push constants too short\n"),
        InputRefusal::NoValue(_) => out.put("refused: no value at a location\n"),
        InputRefusal::BadIds => out.put("refused: ids\n"),
    }
}
