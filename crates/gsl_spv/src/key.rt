//! Declarations without their ids, to look them up by.

ghost use Rattle.std.specs.Prelude.{◌≡◌, ◌∷◌, ◌++◌, IfOk, nat_eq, option_to_list};
ghost use Rattle.std.specs.Cmp.Lexicographic.{pointwise, nat_list_eq_equiv};
ghost use Rattle.std.specs.Cmp.{partial_equiv_from_equiv};
ghost use Rattle.std.specs.Cmp.Rules.{hashing};
ghost use Rattle.std.specs.Hash as fed;
ghost use Rattle.std.proofs.Common.{rules};

use gsl_base::Memory;
use std::alloc::Global;
use std::hash::{Hash, Hasher};
use std::marker::Model;

/// A declaration's opcode and its operands without the id. Contracts see the list of these.
#[derive(Drop)]
pub struct Key {
    words: Vec<u32>,
}

impl Model for Key {
    ghost use Rattle.std.specs.Prelude.{List, ℕ};

    ghost Value = { List ℕ };

    ghost view = { λ k. k.words.items };
}

impl Key {
    /// The key of a declaration: its opcode, its type, if it has one, and its other operands.
    pub fn of(alloc: Global, op: u16, ty: Option<u32>, operands: &[u32]) -> Result<Key, Memory>
        ensures { IfOk result (λ k. k ≡ op ∷ option_to_list ty ++ operands.now) }
    {
        let mut words = Vec::with_capacity(alloc, 2 + operands.len())?;
        words.push(u32::from(op))?;
        if let Some(ty) = ty {
            words.push(ty)?;
        }
        words.extend_from_slice(operands)?;
        Ok(Key { words })
    }
}

impl PartialEq for Key {
    ghost eq = { pointwise nat_eq };

    ghost laws = { partial_equiv_from_equiv nat_list_eq_equiv };

    fn eq(&self, other: &Key) -> bool {
        self.words.as_slice() == other.words.as_slice()
    }
}

impl Eq for Key {
    ghost laws = { nat_list_eq_equiv };
}

impl Hash for Key {
    ghost hash_input = { λ k. fed.slice fed.u32 k };

    ghost respects_eq = { Prim.search (hashing, rules) };

    fn hash<H: Hasher>(&self, state: &mut H) {
        self.words.as_slice().hash(state);
    }
}
