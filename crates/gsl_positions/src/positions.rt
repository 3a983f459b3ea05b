//! Where the code of a module goes on.

ghost use Rattle.std.specs.Prelude.{◌≡◌, ◌+◌, ◌^◌, ◌<◌, ◌≤◌, ◌∷◌, IsSome, None, Some, length};
ghost use Rattle.gsl_machine.specs.Functions as machine;
ghost use Rattle.gsl_positions.specs.Positions as spec;
ghost use Rattle.gsl_valid.specs.IdsDefinedOnce.{ids_defined_once};
ghost use Rattle.gsl_valid.specs.Placed.{count_of_words};

use gsl_ids::Definitions;
use gsl_instr::op;
use gsl_words::Module;

/// The opcode and the operand words of the next instruction, read where they stand.
pub fn instr_at(of: &Module, at: u32) -> (u16, &[u32])
    requires { 0 < length (spec.left of.now at) }
    ensures { spec.left of.now at ≡ record { at = spec.place_of of.now at; instr = record { op = result.0; args = result.1.now } } ∷ spec.behind of.now at result.0 }
{
    (of.instrs.op(at), of.instrs.args(at))
}

/// The place of an instruction: the number of words before it in the file. It takes a step for each instruction in front.
pub fn place_at(of: &Module, at: u32) -> u32
    requires within { at ≤ length of.now.instrs }
    requires words { count_of_words of.now < 2 ^ 32 }
    ensures { result ≡ spec.place_of of.now at }
{
    let mut place = 5;
    for k in 0..at {
        place += 1 + of.instrs.args(k).len() as u32;
    }
    place
}

/// The first instruction of the body of a function.
pub fn function_at(definitions: &Definitions<'_>, id: u32) -> u32
    requires once { ids_defined_once definitions.now ≡ None }
    requires there { IsSome (machine.function_at definitions.now id) }
    ensures { machine.function_at definitions.now id ≡ Some (spec.left definitions.now result) }
{
    definitions.number(id)
}

/// The instruction that is the label of an id, in what is still to come of a function.
pub fn label_at(definitions: &Definitions<'_>, body: u32, id: u32) -> u32
    requires once { ids_defined_once definitions.now ≡ None }
    requires there { IsSome (machine.from_label (spec.left definitions.now body) id) }
    ensures { machine.from_label (spec.left definitions.now body) id ≡ Some (spec.left definitions.now result) }
{
    let _body = body;
    definitions.number(id) - 1
}

/// The first label in what is still to come of a function.
pub fn first_label(of: &Module, body: u32) -> u32
    requires { length of.now.instrs < 2 ^ 32 }
    ensures { machine.from_first_label (spec.left of.now body) ≡ spec.left of.now result }
{
    let count = of.instrs.len() as u32;
    let mut at = body;
    while at < count {
        let op = of.instrs.op(at);
        if op == op::LABEL {
            return at;
        }
        if op == op::FUNCTION_END {
            return count;
        }
        at += 1;
    }
    at
}
