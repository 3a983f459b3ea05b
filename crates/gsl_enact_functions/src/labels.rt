//! Where functions and blocks begin.

ghost use Rattle.std.specs.Prelude.{◌≡◌, ◌==◌, ◌&&◌};
ghost use Rattle.gsl_enact_functions.specs.Bodies as spec;
ghost use Rattle.gsl_instr.specs.declared.op.TheConstants as ops;
ghost use Rattle.gsl_machine.specs.Functions as machine;
ghost use Rattle.gsl_valid.specs.Ids.{defines as defines_of};

use gsl_enact_state::{Code, Globals};
use gsl_ids::defined_by;
use gsl_instr::op;

/// Whether an instruction defines an id.
fn defines(op: u16, args: &[u32], id: u32) -> bool
    ensures { result ≡ defines_of (record { op = op; args = args.now }) id }
{
    match defined_by(op, args) {
        Some(other) => other == id,
        None => false,
    }
}

/// Whether it is the first one of the function of an id.
fn is_function(op: u16, args: &[u32], id: u32) -> bool
    ensures { result ≡ (op == ops.FUNCTION && defines_of (record { op = op; args = args.now }) id) }
{
    op == op::FUNCTION && defines(op, args, id)
}

/// Whether it is the label of an id.
fn is_label_of(op: u16, args: &[u32], id: u32) -> bool
    ensures { result ≡ (op == ops.LABEL && defines_of (record { op = op; args = args.now }) id) }
{
    op == op::LABEL && defines(op, args, id)
}

pub(crate) fn is_end(op: u16) -> bool
    ensures { result ≡ (op == ops.FUNCTION_END) }
{
    op == op::FUNCTION_END
}

fn is_label(op: u16) -> bool
    ensures { result ≡ (op == ops.LABEL) }
{
    op == op::LABEL
}

/// The instructions behind the first one of the function of an id.
#[tactic(auto, using(crate::proofs::Cut::function_in_is))]
pub fn function_at<'a>(globals: &Globals<'a>, id: u32) -> Option<Code<'a>>
    ensures { spec.cut result ≡ machine.function_at globals.now id }
{
    function_from(&globals.code(), id)
}

#[tactic(auto, unfolding(crate::specs::Bodies::function_from))]
fn function_from<'a>(code: &Code<'a>, id: u32) -> Option<Code<'a>>
    ensures { result ≡ spec.function_from code.now id }
{
    let mut rest = code.copied();
    while let Some((_, op, args)) = rest.next() {
        if is_function(op, args, id) {
            return Some(rest);
        }
    }
    None
}

/// The instructions of a function from the label of an id on.
#[tactic(auto, using(crate::proofs::Cut::from_label_is))]
pub fn label_at<'a>(body: &Code<'a>, id: u32) -> Option<Code<'a>>
    ensures { spec.cut result ≡ machine.from_label (machine.up_to_end body.now) id }
{
    label_from(body, id)
}

#[tactic(auto, unfolding(crate::specs::Bodies::label_from))]
fn label_from<'a>(code: &Code<'a>, id: u32) -> Option<Code<'a>>
    ensures { result ≡ spec.label_from code.now id }
{
    let mut rest = code.copied();
    let mut here = rest.copied();
    while let Some((_, op, args)) = rest.next() {
        if is_end(op) {
            return None;
        }
        if is_label_of(op, args, id) {
            return Some(here);
        }
        here = rest.copied();
    }
    None
}

/// The instructions of a function from the first label on.
#[tactic(auto, using(crate::proofs::Cut::from_first_label_is))]
pub(crate) fn first_label<'a>(body: &Code<'a>) -> Code<'a>
    ensures { machine.up_to_end result ≡ machine.from_first_label (machine.up_to_end body.now) }
{
    labels_from(body)
}

#[tactic(auto, unfolding(crate::specs::Bodies::labels_from))]
fn labels_from<'a>(code: &Code<'a>) -> Code<'a>
    ensures { result ≡ spec.labels_from code.now }
{
    let mut rest = code.copied();
    let mut here = rest.copied();
    while let Some((_, op, _)) = rest.next() {
        if is_end(op) {
            return code.none();
        }
        if is_label(op) {
            return here;
        }
        here = rest.copied();
    }
    code.none()
}
