//! Decorations and names.

ghost use Rattle.std.specs.Prelude.{◌≡◌, [], ◌∷◌, ◌++◌, OnOk, OnErr};
ghost use Rattle.gsl_spv.specs.Calls.{decorating, naming};

use gsl_base::Memory;
use gsl_instr::op;
use gsl_words::Instrs;

/// Adds a decoration of an id, or of a member of it. After `Memory` all is as before.
pub fn put_decoration(
    section: &mut Instrs,
    target: u32,
    member: Option<u32>,
    what: u32,
    literal: Option<u32>,
) -> Result<(), Memory>
    ensures ok { OnOk result (section.new ≡ section.old ++ decorating target member what literal ∷ []) }
    ensures memory { OnErr result (section.new ≡ section.old) }
{
    match (member, literal) {
        (None, None) => section.put(op::DECORATE, &[target, what]),
        (None, Some(literal)) => section.put(op::DECORATE, &[target, what, literal]),
        (Some(member), None) => section.put(op::MEMBER_DECORATE, &[target, member, what]),
        (Some(member), Some(literal)) => {
            section.put(op::MEMBER_DECORATE, &[target, member, what, literal])
        }
    }
}

/// Adds a name of an id, or of a member of it. After `Memory` all is as before.
pub fn put_name(
    section: &mut Instrs,
    target: u32,
    member: Option<u32>,
    text: &str,
) -> Result<(), Memory>
    ensures ok { OnOk result (section.new ≡ section.old ++ naming target member text.now ∷ []) }
    ensures memory { OnErr result (section.new ≡ section.old) }
{
    match member {
        None => section.put_text(op::NAME, &[target], text),
        Some(member) => section.put_text(op::MEMBER_NAME, &[target, member], text),
    }
}
