//! Calls of functions, by how deep they nest.

ghost use Rattle.std.specs.Prelude.{◌≡◌, IfOk, slice_get};
ghost use Rattle.gsl_meaning.specs.Shader as spec;
ghost use Rattle.gsl_perform.specs.Calling.{Calls};
ghost use Rattle.gsl_perform.specs.Does.{Does};
ghost use Rattle.gsl_perform.specs.Framed.{around};
ghost use Rattle.gsl_flow.specs.Flows.{flow_of};
ghost use Rattle.gsl_perform_main.specs.Calling as words;

use crate::finding::{function_of, main_of, result_type};
use crate::zeros::zeros;
use gsl_base::{List, Memory};
use gsl_flow::{Body, Left, spend};
use gsl_perform::{Around, Called, Frame, Stop, World};
use gsl_tree::Function;
use gsl_types::Ty;
use gsl_values::{Value, Values};
use std::alloc::Global;

/// What a function gives, by how its body was left; zeros where its end was reached.
fn result_of(alloc: Global, frame: &Frame<'_>, ty: &Ty, left: Left) -> Result<Value, Memory>
    ensures { IfOk result (λ v. v ≡ spec.result_of frame.now.program.structs ty.now (flow_of left)) }
{
    match left {
        Left::Returned(v) => Ok(v),
        _ => frame.zero(alloc, ty),
    }
}

/// The body of a function, where calls nest at most so deep, on arguments.
#[tactic(auto, using(crate::proofs::Steps::performs_step))]
fn performs<F: Fn(Global, &Frame<'_>, usize, u32, Values, &mut World) -> Result<Called, Stop>>(
    alloc: Global,
    frame: &Frame<'_>,
    depth: usize,
    call: F,
    f: &Function,
    ty: &Ty,
    args: Values,
    w: &mut World,
) -> Result<Called, Stop>
    requires { Calls frame.now depth (F.pre call) (F.post call) }
    ensures { Does result w.new (words.performs (around frame.now depth) f.now ty.now args w.old.store w.old.units) }
{
    let locals = zeros(alloc, frame, &f.locals)?;
    let caller = w.store.enter(args, locals);
    let body = Body {
        around: Around {
            alloc,
            frame,
            depth,
            call,
        },
        locals: &f.locals,
    };
    let left = body.row(&f.body, w)?;
    let value = result_of(alloc, frame, ty, left)?;
    let params = w.store.leave(caller);
    Ok(Called { value, params })
}

/// The body of a function, where calls nest at most so deep.
#[cycle(call)]
fn performs_at(
    alloc: Global,
    frame: &Frame<'_>,
    depth: usize,
    f: &Function,
    ty: &Ty,
    args: Values,
    w: &mut World,
) -> Result<Called, Stop>
    ensures { Does result w.new (words.performs (around frame.now depth) f.now ty.now args w.old.store w.old.units) }
{
    performs(alloc, frame, depth, call, f, ty, args, w)
}

/// A call of a function, where calls nest at most so deep: each uses a unit.
#[cycle(call)]
pub fn call(
    alloc: Global,
    frame: &Frame<'_>,
    depth: usize,
    number: u32,
    args: Values,
    w: &mut World,
) -> Result<Called, Stop>
    ensures { Does result w.new (spec.calls frame.now.program frame.now.input depth number args w.old.store w.old.units) }
{
    if depth == 0 {
        return Err(Stop::Goes);
    }
    let none = Ty::Void;
    let program = frame.program();
    let ty = result_type(&program.prototypes, &none, number);
    match function_of(&program.functions, number) {
        None => Err(Stop::Goes),
        Some(f) => {
            spend(w)?;
            performs_at(alloc, frame, depth - 1, f, ty, args, w)
        }
    }
}

/// How deep calls nest at most.
const MOST_CALLS: usize = 64;

/// The function that is `main`, from the world as it begins.
pub fn run(alloc: Global, frame: &Frame<'_>, w: &mut World) -> Result<Called, Stop>
    ensures { Does result w.new (spec.main_of frame.now.program frame.now.input (slice_get frame.now.program.functions frame.now.program.main) w.old.store w.old.units) }
{
    let none = Ty::Void;
    let program = frame.program();
    match main_of(program) {
        None => Err(Stop::Goes),
        Some(f) => performs_at(alloc, frame, MOST_CALLS, f, &none, List::new(alloc), w),
    }
}
