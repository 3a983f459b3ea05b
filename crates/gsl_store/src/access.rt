//! Variables and their parts, as expressions name them.

ghost use Rattle.std.specs.Prelude.{◌≡◌, ◌∷◌, [], IfOk, take, None, slice_index};
ghost use Rattle.gsl_store.specs.Roots.{root_of};
ghost use Rattle.gsl_values.specs.Vectors.{components as picked};
ghost use Rattle.gsl_meaning.specs.Accesses as spec;
ghost use Rattle.gsl_meaning.specs.Expressions.{member_root as member_root_of};

use crate::root::Root;
use crate::words::{Words, word_at, words_at};
use gsl_base::{List, Memory};
use gsl_values::Lanes;
use std::alloc::Global;
use std::marker::Model;

/// A root, the numbers of the members, elements and components that lead to a part of it, and of that part, where it is swizzled, the
/// positions that are picked. Contracts see it as the `Access` of `gsl_meaning`.
#[derive(Drop)]
pub struct Access {
    pub(crate) root: Root,
    pub(crate) path: Words,
    pub(crate) picked: Option<Words>,
}

impl Model for Access {
    ghost use Rattle.gsl_meaning.specs.Accesses.{Access as Named};
    ghost use Rattle.gsl_values.specs.contracts.value.Value as value;
    ghost use Rattle.std.specs.Coded.{codes};

    ghost Value = { Named };

    ghost coded = { Prim.hlevel (codes, value.the_row.coded) };

    ghost use Rattle.gsl_store.specs.Roots.{root_of};

    ghost view = { λ a. record { root = root_of a.root; path = a.path; picked = a.picked } };
}

/// The positions that a swizzle picks.
fn positions_of(alloc: Global, lanes: &Lanes) -> Result<Words, Memory>
    ensures { IfOk result (λ l. l ≡ picked lanes.now) }
{
    let positions = &lanes.words[..(lanes.count as usize).min(4)];
    List::from_slice(alloc, positions)
}

/// The position that an index picks, of those that a swizzle picks.
fn component_at(alloc: Global, positions: &Words, index: u32) -> Result<Words, Memory>
    ensures { IfOk result (λ l. l ≡ slice_index positions.now index ∷ []) }
{
    List::from_slice(alloc, &[word_at(positions, index)])
}

/// The positions that a swizzle picks, of those that are picked already.
fn picked_of(alloc: Global, before: &Option<Words>, positions: Words) -> Result<Words, Memory>
    ensures { IfOk result (λ l. l ≡ spec.picked_of before.now positions) }
{
    match before {
        None => Ok(positions),
        Some(before) => words_at(alloc, before, positions.as_slice()),
    }
}

impl Access {
    /// The whole of a variable or of a value.
    pub fn whole(alloc: Global, root: Root) -> Access
        ensures { result ≡ spec.whole (root_of root) }
    {
        Access {
            root,
            path: List::new(alloc),
            picked: None,
        }
    }

    /// A member of a block.
    pub fn member_root(alloc: Global, block: u32, number: u32) -> Result<Access, Memory>
        ensures { IfOk result (λ a. a ≡ member_root_of block number) }
    {
        let path = List::from_slice(alloc, &[number])?;
        Ok(Access {
            root: Root::Block(block),
            path,
            picked: None,
        })
    }

    /// The member of a number.
    pub fn member_of(self, number: u32) -> Result<Access, Memory>
        ensures { IfOk result (λ a. a ≡ spec.member_of self number) }
    {
        let Access {
            root,
            mut path,
            picked,
        } = self;
        path.push(number)?;
        Ok(Access { root, path, picked })
    }

    /// The part at an index.
    pub fn index_of(self, alloc: Global, index: u32) -> Result<Access, Memory>
        ensures { IfOk result (λ a. a ≡ spec.index_of self index) }
    {
        let Access {
            root,
            mut path,
            picked,
        } = self;
        match picked {
            None => {
                path.push(index)?;
                Ok(Access {
                    root,
                    path,
                    picked: None,
                })
            }
            Some(positions) => Ok(Access {
                root,
                path,
                picked: Some(component_at(alloc, &positions, index)?),
            }),
        }
    }

    /// What a swizzle picks.
    pub fn swizzle_of(self, alloc: Global, lanes: &Lanes) -> Result<Access, Memory>
        ensures { IfOk result (λ a. a ≡ spec.swizzle_of self (picked lanes.now)) }
    {
        let Access { root, path, picked } = self;
        let positions = positions_of(alloc, lanes)?;
        let positions = picked_of(alloc, &picked, positions)?;
        Ok(Access {
            root,
            path,
            picked: Some(positions),
        })
    }
}
