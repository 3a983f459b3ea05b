//! The blocks of a function one by one.

ghost use Rattle.std.specs.Prelude.{◌≡◌, ◌+◌, ◌^◌, ◌<◌, ◌≤◌, [], ◌∷◌, length, drop, MatchOption};
ghost use Rattle.gsl_blocks.specs.Blocks as spec;

use crate::block::{Block, Merge, Role, read_role};
use gsl_words::Instrs;
use std::marker::Model;

/// The blocks of a function that are still to come. Contracts see the list of them.
#[derive(Drop)]
pub struct Blocks<'a> {
    instrs: &'a Instrs,
    at: u32,
    label: u32,
    merge: Merge,
}

impl<'a> Model for Blocks<'a> {
    ghost use Rattle.std.specs.Prelude.{List, ◌^◌, ◌<◌, length, drop};
    ghost use Rattle.gsl_blocks.specs.declared.block.Block.{Block as OneBlock};

    ghost Value = { List OneBlock };

    ghost use Rattle.gsl_blocks.specs.Blocks.{blocks_from};

    ghost view = { λ blocks. blocks_from (drop blocks.at blocks.instrs.now) blocks.label blocks.merge };

    ghost invariant = { λ blocks. length blocks.instrs.now < 2 ^ 32 };
}

impl<'a> Blocks<'a> {
    ghost use Rattle.gsl_blocks.specs.Blocks as spec;

    /// The blocks of the function that begins at an instruction.
    pub fn new(instrs: &'a Instrs, at: u32) -> Blocks<'a>
        requires { length instrs.now < 2 ^ 32 }
        ensures { result ≡ spec.blocks_of (drop at instrs.now) }
    {
        Blocks {
            instrs,
            at,
            label: 0,
            merge: Merge::Nothing,
        }
    }

    /// The next block, or `None` behind the last.
    pub fn next(&mut self) -> Option<Block<'a>>
        ensures { MatchOption result ((self.old ≡ []) × (self.new ≡ [])) (λ block. self.old ≡ block ∷ self.new) }
    {
        while (self.at as usize) < self.instrs.len() {
            let at = self.at;
            self.at = at + 1;
            match read_role(self.instrs.op(at), self.instrs.args(at)) {
                Role::Opens(label) => {
                    self.label = label;
                    self.merge = Merge::Nothing;
                }
                Role::Merges(merge) => self.merge = merge,
                Role::Ends(end) => {
                    return Some(Block {
                        label: self.label,
                        merge: self.merge,
                        end,
                    });
                }
                Role::Closes => {
                    self.at = self.instrs.len() as u32;
                    return None;
                }
                Role::Inside => {}
            }
        }
        None
    }
}
