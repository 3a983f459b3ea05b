//! What functions return.

ghost use Rattle.std.specs.Prelude.{◌≡◌, ◌^◌, ◌<◌, length};
ghost use Rattle.gsl_kinds.specs.Seen.{kind_seen};
ghost use Rattle.gsl_valid.specs.EntryRules.{model_of as stage_of};
ghost use Rattle.gsl_valid.specs.Instruction.{read as read_as, passes_if};
ghost use Rattle.gsl_valid.specs.Placed.{count_of_words};
ghost use Rattle.gsl_valid.specs.ReturnRules as spec;
ghost use Rattle.gsl_valid_order.specs.Returned as kept;

use gsl_ids::{Definitions, Each, Test, first_failed};
use gsl_instr::enumerant::execution_model;
use gsl_instr::{Instruction, read};
use gsl_kinds::{Kind, has_type, is_void, kind_at};
use gsl_words::Module;

/// The place of the first instruction that leaves a function and may not stand there, which breaks V16.
pub fn returns(definitions: &Definitions<'_>) -> Option<u32>
    requires length { length definitions.now.instrs < 2 ^ 32 }
    requires words { count_of_words definitions.now < 2 ^ 32 }
    ensures { result ≡ spec.returns definitions.now }
{
    let mut test = ReturnTest {
        definitions,
        model: model_of(definitions.module()),
        returned: None,
    };
    first_failed(&mut test, definitions.module())
}

/// The stage of the first entry point of a module, GLCompute where there is none.
fn model_of(of: &Module) -> u32
    requires length { length of.now.instrs < 2 ^ 32 }
    requires words { count_of_words of.now < 2 ^ 32 }
    ensures { result ≡ stage_of of.now.instrs }
{
    first_model(Each::new(of))
}

/// The stage of the first entry point of some instructions.
fn first_model(each: Each<'_>) -> u32
    ensures { result ≡ kept.model_in each.entry }
{
    let mut each = each;
    while let Some((_, op, args)) = each.next() {
        if let Some(Instruction::EntryPoint { model, .. }) = read(op, args) {
            return model;
        }
    }
    execution_model::GL_COMPUTE
}

/// The test of V16, which knows the stage, and the result type of the nearest Function before.
#[derive(Drop)]
pub(crate) struct ReturnTest<'a> {
    definitions: &'a Definitions<'a>,
    model: u32,
    returned: Option<u32>,
}

impl<'a> Test for ReturnTest<'a> {
    ghost use Rattle.gsl_valid.specs.Instruction.{read, passes_if};
    ghost use Rattle.gsl_valid.specs.Kinds.{kind};
    ghost use Rattle.gsl_valid_order.specs.Returned.{may_return, returned_after};

    ghost passes = { λ s at i. passes_if (may_return s.definitions.now s.model s.returned) (read i) };

    ghost behind = { λ s at i. record { definitions = s.definitions; model = s.model; returned = returned_after s.returned (kind (read i)) } };

    fn test(&mut self, _at: u32, op: u16, args: &[u32]) -> bool {
        let passed = may_return_at(self.definitions, self.model, self.returned, op, args);
        self.returned = returned_after(self.returned, kind_at(op, args));
        passed
    }
}

/// The result type of the nearest Function behind an instruction.
fn returned_after(returned: Option<u32>, kind: Kind<'_>) -> Option<u32>
    ensures { result ≡ kept.returned_after returned (kind_seen kind.entry) }
{
    match kind {
        Kind::Begins { type_, .. } => Some(type_),
        _ => returned,
    }
}

/// Whether the instruction of an opcode, if it leaves a function, may stand in one that returns this.
fn may_return_at(
    definitions: &Definitions<'_>,
    model: u32,
    returned: Option<u32>,
    op: u16,
    args: &[u32],
) -> bool
    ensures { result ≡ passes_if (kept.may_return definitions.now model returned) (read_as (record { op = op; args = args.now })) }
{
    match read(op, args) {
        Some(instruction) => may_return(definitions, model, returned, instruction),
        None => true,
    }
}

/// Whether an instruction, if it leaves a function, may stand in one that returns this.
fn may_return(
    definitions: &Definitions<'_>,
    model: u32,
    returned: Option<u32>,
    instruction: Instruction<'_>,
) -> bool
    ensures { result ≡ kept.may_return definitions.now model returned instruction.entry }
{
    match instruction {
        Instruction::Kill => model == execution_model::FRAGMENT,
        Instruction::Return => returns_void(definitions, returned),
        Instruction::ReturnValue { value } => returns_value(definitions, value, returned),
        _ => true,
    }
}

/// Whether a result type, if there is one, is Void.
fn returns_void(definitions: &Definitions<'_>, returned: Option<u32>) -> bool
    ensures { result ≡ kept.returns_void definitions.now returned }
{
    match returned {
        Some(type_) => is_void(definitions, type_),
        None => false,
    }
}

/// Whether a result type, if there is one, is that of a value and not Void.
fn returns_value(definitions: &Definitions<'_>, value: u32, returned: Option<u32>) -> bool
    ensures { result ≡ kept.returns_value definitions.now value returned }
{
    match returned {
        Some(type_) => !is_void(definitions, type_) && has_type(definitions, type_, value),
        None => false,
    }
}
