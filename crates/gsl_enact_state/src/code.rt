//! The instructions that are still to come.

ghost use Rattle.std.specs.Prelude.{◌≡◌, ◌+◌, ◌^◌, ◌<◌, [], ◌∷◌, length, MatchOption};
ghost use Rattle.gsl_valid.specs.Placed as spec;

use gsl_words::{Instrs, Module};
use std::marker::Model;

/// The instructions of a module from one of them on. Contracts see the list of them, each at its place.
#[derive(Drop)]
pub struct Code<'a> {
    instrs: &'a Instrs,
    at: u32,
    place: u32,
}

impl<'a> Model for Code<'a> {
    ghost use Rattle.std.specs.Prelude.{List, ◌^◌, ◌<◌, length, drop};
    ghost use Rattle.gsl_valid.specs.Placed.{Placed, placed_from, words_from};

    ghost Value = { List Placed };

    ghost view = { λ code. placed_from code.place (drop code.at code.instrs.now) };

    ghost invariant = { λ code. (length code.instrs.now < 2 ^ 32) × (words_from code.place (drop code.at code.instrs.now) < 2 ^ 32) };
}

impl<'a> Code<'a> {
    ghost use Rattle.gsl_valid.specs.Placed as spec;

    /// The instructions of a module.
    pub fn new(of: &'a Module) -> Code<'a>
        requires length { length of.now.instrs < 2 ^ 32 }
        requires words { spec.count_of_words of.now < 2 ^ 32 }
        ensures { result ≡ spec.placed of.now }
    {
        Code {
            instrs: &of.instrs,
            at: 0,
            place: 5,
        }
    }

    /// The same instructions once more.
    pub fn copied(&self) -> Code<'a>
        ensures { result ≡ self.now }
    {
        Code {
            instrs: self.instrs,
            at: self.at,
            place: self.place,
        }
    }

    /// No instructions.
    pub fn none(&self) -> Code<'a>
        ensures { result ≡ [] }
    {
        Code {
            instrs: self.instrs,
            at: self.instrs.len() as u32,
            place: 0,
        }
    }

    /// The place, the opcode and the operand words of the next instruction, or `None` behind the last.
    pub fn next(&mut self) -> Option<(u32, u16, &'a [u32])>
        ensures { MatchOption result (self.old ≡ []) (λ p. self.old ≡ record { at = p.0; instr = record { op = p.1; args = p.2.now } } ∷ self.new) }
    {
        let at = self.at;
        if (at as usize) >= self.instrs.len() {
            return None;
        }
        let place = self.place;
        let op = self.instrs.op(at);
        let args = self.instrs.args(at);
        self.at = at + 1;
        self.place = behind(place, args);
        Some((place, op, args))
    }
}

/// The place behind an instruction of these operand words.
fn behind(place: u32, args: &[u32]) -> u32
    requires { place + (1 + length args.now) < 2 ^ 32 }
    ensures { result ≡ place + (1 + length args.now) }
{
    place + 1 + args.len() as u32
}
