//! The instructions of a module one by one.

ghost use Rattle.std.specs.Prelude.{◌≡◌, ◌+◌, ◌^◌, ◌<◌, [], ◌∷◌, length, MatchOption};
ghost use Rattle.gsl_valid.specs.Placed as spec;
ghost use Rattle.gsl_words.specs.Instructions.{HasFile};

use gsl_words::{Instrs, Module};
use std::marker::Model;

/// The instructions of a module that are still to come. Contracts see the list of them, each at its place.
#[derive(Drop)]
pub struct Each<'a> {
    instrs: &'a Instrs,
    at: u32,
    place: u32,
}

impl<'a> Model for Each<'a> {
    ghost use Rattle.std.specs.Prelude.{List, ◌^◌, ◌<◌, length, drop};
    ghost use Rattle.gsl_valid.specs.Placed.{Placed, placed_from, words_from};

    ghost Value = { List Placed };

    ghost view = { λ each. placed_from each.place (drop each.at each.instrs.now) };

    ghost invariant = { λ each. (length each.instrs.now < 2 ^ 32) × (words_from each.place (drop each.at each.instrs.now) < 2 ^ 32) };
}

impl<'a> Each<'a> {
    ghost use Rattle.gsl_valid.specs.Placed as spec;

    /// The instructions of a module.
    pub fn new(of: &'a Module) -> Each<'a>
        requires length { length of.now.instrs < 2 ^ 32 }
        requires words { spec.count_of_words of.now < 2 ^ 32 }
        ensures { result ≡ spec.placed of.now }
    {
        Each {
            instrs: &of.instrs,
            at: 0,
            place: 5,
        }
    }

    /// The place, the opcode and the operand words of the next instruction, or `None` behind the last.
    pub fn next(&mut self) -> Option<(u32, u16, &'a [u32])>
        ensures { MatchOption result (self.old ≡ []) (λ p. self.old ≡ record { at = p.0; instr = record { op = p.1; args = p.2.now } } ∷ self.new) }
    {
        let at = self.at;
        if (at as usize) >= self.instrs.len() {
            return None;
        }
        let place = self.place;
        let op = self.instrs.op(at);
        let args = self.instrs.args(at);
        self.at = at + 1;
        self.place = behind(place, args);
        Some((place, op, args))
    }
}

/// The place behind an instruction of these operand words.
fn behind(place: u32, args: &[u32]) -> u32
    requires { place + (1 + length args.now) < 2 ^ 32 }
    ensures { result ≡ place + (1 + length args.now) }
{
    place + 1 + args.len() as u32
}

/// How many words the file of a module has.
pub fn count_of_words(of: &Module) -> u32
    requires file { HasFile of.now }
    requires words { spec.count_of_words of.now < 2 ^ 32 }
    ensures { result ≡ spec.count_of_words of.now }
{
    5 + of.instrs.words().len() as u32
}
