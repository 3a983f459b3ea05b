//! The instructions of a module, from its end to its front.

ghost use Rattle.std.specs.Prelude.{◌≡◌, ◌+◌, ◌∷◌, [], drop, length, MatchOption};

use gsl_decorations::Decorations;

/// How many instructions there are.
pub(crate) fn count(decorations: &Decorations<'_>) -> usize
    ensures { result ≡ length decorations.now.instrs }
{
    decorations.definitions().module().instrs.len()
}

/// The opcode and the operand words of the instruction of a number, or `None` behind the last.
pub(crate) fn instr_at<'a>(decorations: &Decorations<'a>, at: usize) -> Option<(u16, &'a [u32])>
    ensures { MatchOption result (drop at decorations.now.instrs ≡ []) (λ p. drop at decorations.now.instrs ≡ record { op = p.0; args = p.1.now } ∷ drop (at + 1) decorations.now.instrs) }
{
    decorations.definitions().instr(at)
}
