//! Built-in variables (GLSL 4.50, 7.1; GL_KHR_vulkan_glsl).

ghost use Rattle.std.specs.Prelude.{◌≡◌, ◌<◌, IfOk};
ghost use Rattle.gsl_inputs.specs.Given as spec;
ghost use Rattle.gsl_meaning.specs.Stages.{stage_value};

use crate::frame::Frame;
use gsl_base::{Input, List, Memory};
use gsl_tree::StageVar;
use gsl_values::Value;
use std::alloc::Global;

/// The vector of three words.
fn vector_of(alloc: Global, words: &[u32]) -> Result<Value, Memory>
    ensures { IfOk result (λ v. v ≡ spec.vector_of words.now) }
{
    let mut parts = List::new(alloc);
    for k in 0..words.len() {
        parts.push(Value::Word(words[k]))?;
    }
    Ok(Value::Many(parts))
}

/// A part of the number of an invocation among all.
fn global_part(size: &[u32; 3], input: &Input, i: usize) -> u32
    requires { i < 3 }
    ensures { result ≡ spec.global_part size.now input.now i }
{
    input.group[i]
        .wrapping_mul(size[i])
        .wrapping_add(input.local[i])
}

fn global_id(alloc: Global, size: &[u32; 3], input: &Input) -> Result<Value, Memory>
    ensures { IfOk result (λ v. v ≡ spec.global_id size.now input.now) }
{
    let x = global_part(size, input, 0);
    let y = global_part(size, input, 1);
    let z = global_part(size, input, 2);
    vector_of(alloc, &[x, y, z])
}

/// The number of an invocation in its work group.
#[tactic(auto, using(crate::proofs::Products::index_is))]
fn local_index(size: &[u32; 3], input: &Input) -> u32
    ensures { Value.Word result ≡ spec.local_index size.now input.now }
{
    let z = input.local[2].wrapping_mul(size[0]).wrapping_mul(size[1]);
    let y = input.local[1].wrapping_mul(size[0]);
    z.wrapping_add(y).wrapping_add(input.local[0])
}

impl<'a> Frame<'a> {
    /// The value of a built-in variable.
    pub(crate) fn stage_value(&self, alloc: Global, var: StageVar) -> Result<Value, Memory>
        ensures { IfOk result (λ v. v ≡ stage_value self.now.program.local_size self.now.input var) }
    {
        let size = &self.program.local_size;
        let input = self.input;
        match var {
            StageVar::NumWorkGroups => vector_of(alloc, &input.groups),
            StageVar::WorkGroupId => vector_of(alloc, &input.group),
            StageVar::LocalInvocationId => vector_of(alloc, &input.local),
            StageVar::GlobalInvocationId => global_id(alloc, size, input),
            StageVar::LocalInvocationIndex => Ok(Value::Word(local_index(size, input))),
            StageVar::VertexIndex => Ok(Value::Word(input.vertex)),
            StageVar::InstanceIndex => Ok(Value::Word(input.instance)),
        }
    }
}
