//! Tables of first instructions.

ghost use Rattle.std.specs.Prelude.{◌≡◌, ◌+◌, ◌^◌, ◌<◌, length, drop, IfOk, OnOk};
ghost use Rattle.indexmap.specs.IndexMap.{get};
ghost use Rattle.gsl_decorations.specs.Firsts as spec;

use gsl_base::Memory;
use gsl_words::Module;
use indexmap::IndexMap;
use std::alloc::Global;
use std::hash::Hash;

/// What instructions are found by: each has one key or none.
pub trait Keyed<K: Copy + Eq + Hash> {
    ghost use Rattle.std.specs.Prelude.{Bool};
    ghost use Rattle.gsl_words.specs.declared.module.Instr.{Instr};
    ghost use Rattle.gsl_decorations.specs.Firsts as spec;

    /// Whether an instruction has a key.
    ghost has: { Self → K → Instr → Bool };

    /// The key of an instruction, by its opcode and its operand words.
    fn key(&self, op: u16, args: &[u32]) -> Option<K>
        ensures { (key : K) → has self.now key (record { op = op; args = args.now }) ≡ spec.is_key K.eq key result };
}

/// The number of the first instruction that has a key, for each key that one has.
pub fn firsts<K: Copy + Eq + Hash, T: Keyed<K>>(
    alloc: Global,
    of: &Module,
    keyed: &T,
) -> Result<IndexMap<K, u32>, Memory>
    requires few { length of.now.instrs < 2 ^ 32 }
    ensures { IfOk result (λ rows. (key : K) → get K.eq rows key ≡ spec.first_from (T.has keyed.now key) 0 of.now.instrs) }
{
    let mut rows = IndexMap::new(alloc);
    let mut at = of.instrs.len() as u32;
    while at > 0 {
        at -= 1;
        note(&mut rows, of, keyed, at)?;
    }
    Ok(rows)
}

/// Notes the number of an instruction for its key, where those behind it are noted.
fn note<K: Copy + Eq + Hash, T: Keyed<K>>(
    rows: &mut IndexMap<K, u32>,
    of: &Module,
    keyed: &T,
    at: u32,
) -> Result<(), Memory>
    requires within { at < length of.now.instrs }
    requires behind { (key : K) → get K.eq rows.old key ≡ spec.first_from (T.has keyed.now key) (at + 1) (drop (at + 1) of.now.instrs) }
    ensures { OnOk result ((key : K) → get K.eq rows.new key ≡ spec.first_from (T.has keyed.now key) at (drop at of.now.instrs)) }
{
    if let Some(key) = keyed.key(of.instrs.op(at), of.instrs.args(at)) {
        rows.insert(key, at)?;
    }
    Ok(())
}

/// Whether there is a number, and it is below a count.
pub fn is_below(count: u32, number: Option<u32>) -> bool
    ensures { result ≡ spec.is_below count number }
{
    match number {
        Some(number) => number < count,
        None => false,
    }
}
