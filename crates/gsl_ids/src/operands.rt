//! The ids that an instruction uses.

ghost use Rattle.std.specs.Prelude.{◌≡◌};
ghost use Rattle.std.specs.List.{list_all};
ghost use Rattle.gsl_instr.specs.declared.parts.Part.{Part as OnePart};
ghost use Rattle.gsl_ids.specs.Uses as spec;

use gsl_instr::{Part, Parts, Slot, form_of};

/// A test of the ids that an instruction uses.
pub trait UseTest {
    ghost use Rattle.std.specs.Prelude.{ℕ, Bool};

    /// Whether an id that stands before the instruction may be used.
    ghost needed: { Self → ℕ → Bool };

    /// Whether an id that may come later may be.
    ghost mentioned: { Self → ℕ → Bool };

    fn may_need(&self, id: u32) -> bool
        ensures { result ≡ needed self.now id };

    fn may_mention(&self, id: u32) -> bool
        ensures { result ≡ mentioned self.now id };
}

/// Whether the ids that the instruction of an opcode uses may all be used.
pub fn all_used<T: UseTest>(test: &T, op: u16, args: &[u32]) -> bool
    ensures { result ≡ spec.all_used (T.needed test.now) (T.mentioned test.now) (record { op = op; args = args.now }) }
{
    match form_of(op) {
        Some(form) => each_used(test, Parts::new(form, args)),
        None => true,
    }
}

/// Whether those among operands may.
fn each_used<T: UseTest>(test: &T, parts: Parts<'_>) -> bool
    ensures { result ≡ list_all (λ (part : OnePart). spec.is_used (T.needed test.now) (T.mentioned test.now) part.slot part.words) parts.entry }
{
    let mut parts = parts;
    while let Some(part) = parts.next() {
        if !is_used(test, &part) {
            return false;
        }
    }
    true
}

/// Whether those of one operand may.
fn is_used<T: UseTest>(test: &T, part: &Part<'_>) -> bool
    ensures { result ≡ spec.is_used (T.needed test.now) (T.mentioned test.now) part.now.slot part.now.words }
{
    match part.slot {
        Slot::Id => all_needed(test, part.words.as_slice()),
        Slot::Forward => all_mentioned(test, part.words.as_slice()),
        _ => true,
    }
}

/// Whether ids that stand before may be used.
fn all_needed<T: UseTest>(test: &T, ids: &[u32]) -> bool
    ensures { result ≡ list_all (T.needed test.now) ids.now }
{
    ids.iter().all(|id| test.may_need(*id))
}

/// Whether ids that may come later may be.
fn all_mentioned<T: UseTest>(test: &T, ids: &[u32]) -> bool
    ensures { result ≡ list_all (T.mentioned test.now) ids.now }
{
    ids.iter().all(|id| test.may_mention(*id))
}
