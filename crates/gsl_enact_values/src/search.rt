//! The last definition of an id among the first instructions of a module.

ghost use Rattle.std.specs.Prelude.{◌≡◌, ◌<◌, ◌∷◌, [], MatchOption};
ghost use Rattle.gsl_enact_values.specs.Search as spec;
ghost use Rattle.gsl_valid.specs.Ids.{defines as defines_of};

use gsl_ids::{Definitions, defined_by};

/// Whether an instruction defines an id.
fn defines(op: u16, args: &[u32], id: u32) -> bool
    ensures { result ≡ defines_of (record { op = op; args = args.now }) id }
{
    match defined_by(op, args) {
        Some(other) => other == id,
        None => false,
    }
}

/// The number, the opcode and the operand words of the last instruction that defines an id, among so many at the front of the module.
pub fn latest<'a>(
    definitions: &Definitions<'a>,
    count: usize,
    id: u32,
) -> Option<(usize, u16, &'a [u32])>
    ensures { MatchOption result (spec.from_definition (spec.front definitions.now count) id ≡ [])
        (λ p. (spec.from_definition (spec.front definitions.now count) id ≡ record { op = p.1; args = p.2.now } ∷ spec.front definitions.now p.0) × (p.0 < count)) }
{
    let mut at = count;
    while at > 0 {
        at -= 1;
        if let Some((op, args)) = definitions.instr(at) {
            if defines(op, args, id) {
                return Some((at, op, args));
            }
        }
    }
    None
}
