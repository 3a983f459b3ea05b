//! One pass over the instructions of a module.

ghost use Rattle.std.specs.Prelude.{◌≡◌, ◌^◌, ◌<◌, true, None, length};
ghost use Rattle.gsl_ids.specs.Pass as spec;
ghost use Rattle.gsl_valid.specs.Placed.{placed, count_of_words};

use crate::each::Each;
use gsl_words::Module;

/// A test of instructions one by one, which keeps what it has to know of those before.
pub trait Test: Sized + Drop {
    ghost use Rattle.std.specs.Prelude.{ℕ, Bool};
    ghost use Rattle.gsl_words.specs.declared.module.Instr.{Instr};

    /// Whether the instruction of a number passes.
    ghost passes: { Self → ℕ → Instr → Bool };

    /// What is kept behind one that does.
    ghost behind: { Self → ℕ → Instr → Self };

    /// Tests the instruction of a number by its opcode and its operand words. Where it does not pass, no more is known of
    /// what is kept.
    fn test(&mut self, at: u32, op: u16, args: &[u32]) -> bool
        ensures passed { result ≡ passes self.old at (record { op = op; args = args.now }) }
        ensures kept { result ≡ true → self.new ≡ behind self.old at (record { op = op; args = args.now }) };
}

/// The place of the first instruction of a module that does not pass.
#[tactic(auto, unfolding(crate::specs::Pass::first_failed, crate::specs::Pass::kept))]
pub fn first_failed<T: Test>(test: &mut T, of: &Module) -> Option<u32>
    requires length { length of.now.instrs < 2 ^ 32 }
    requires words { count_of_words of.now < 2 ^ 32 }
    ensures place { result ≡ spec.first_failed T.passes T.behind test.old 0 (placed of.now) }
    ensures kept { result ≡ None → test.new ≡ spec.kept T.passes T.behind test.old 0 (placed of.now) }
{
    let mut at = 0;
    let mut each = Each::new(of);
    while let Some((place, op, args)) = each.next() {
        if !test.test(at, op, args) {
            return Some(place);
        }
        at += 1;
    }
    None
}
