//! Whether a module has a file.

ghost use Rattle.std.specs.Prelude.{◌≡◌, ◌^◌, ◌<◌, nat_lt, length, true, IfOk};
ghost use Rattle.std.specs.List.{AllByRecursion};
ghost use Rattle.gsl_valid.specs.Placed.{count_of_words};
ghost use Rattle.gsl_words.specs.Faults.{FitsInstr};
ghost use Rattle.gsl_lowered.specs.Filing as spec;

use gsl_base::Memory;
use gsl_instr::{allows_words, fits_text, form_of};
use gsl_words::{Module, Target};
use std::alloc::Global;

/// The most operand words of an instruction (SPIR-V 1.0, 2.3).
const MOST_WORDS: usize = 65_534;

/// The most words of a module's file.
const MOST_FILE_WORDS: u64 = 4_294_967_295;

/// Whether the table has room for an instruction of this opcode with these operand words.
#[tactic(auto, unfolding(crate::specs::Filing::fits))]
fn is_in_table(alloc: Global, op: u16, args: &[u32]) -> Result<bool, Memory>
    ensures told { IfOk result (λ fits. fits ≡ spec.fits op args.now) }
    ensures types { FitsInstr (record { op = op; args = args.now }) }
{
    let Some(form) = form_of(op) else {
        return Ok(false);
    };
    if args.len() > MOST_WORDS || !allows_words(form, args.len()) {
        return Ok(false);
    }
    fits_text(alloc, form, args)
}

/// Whether a module's file has fewer than 2^32 words.
fn is_short(of: &Module) -> bool
    ensures { result ≡ nat_lt (count_of_words of.now) (2 ^ 32) }
{
    let mut words = 5u64;
    for i in 0..of.instrs.len() {
        words += 1 + of.instrs.args(i as u32).len() as u64;
        if words > MOST_FILE_WORDS {
            return false;
        }
    }
    true
}

/// Whether the table has room for each instruction; their numbers are then in the ranges of their types.
fn all_in_table(alloc: Global, of: &Module) -> Result<bool, Memory>
    requires { length of.now.instrs < 2 ^ 32 }
    ensures told { IfOk result (λ all. all ≡ spec.all_fit of.now.instrs) }
    ensures types { IfOk result (λ all. all ≡ true → AllByRecursion FitsInstr of.now.instrs) }
{
    for i in 0..of.instrs.len() {
        if !is_in_table(alloc, of.instrs.op(i as u32), of.instrs.args(i as u32))? {
            return Ok(false);
        }
    }
    Ok(true)
}

/// Whether a module has a file of fewer than 2^32 words; the numbers of its instructions are then in the ranges of their types.
pub fn is_writable(alloc: Global, of: &Module) -> Result<bool, Memory>
    ensures told { IfOk result (λ writable. writable ≡ spec.is_writable of.now) }
    ensures types { IfOk result (λ writable. writable ≡ true → AllByRecursion FitsInstr of.now.instrs) }
{
    if Target::of_version(of.version).is_none() || !is_short(of) {
        return Ok(false);
    }
    all_in_table(alloc, of)
}
