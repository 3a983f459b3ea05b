//! Ranks of functions by their calls, and how deeply calls nest from each: those that reach each other have one rank, and what they call
//! besides has a lower one. Nothing is promised of either here: `reach.rt` and `depth.rt` check them.

ghost use Rattle.std.specs.Prelude.{◌^◌, ◌<◌, length};

use crate::callees::{is_function, kind_of, next_call};
use crate::depth::{DEEP, deeper, one_more};
use crate::table::{byte_at, put_byte, put_word, word_at};
use gsl_base::Memory;
use gsl_ids::Definitions;
use gsl_kinds::Kind;
use std::alloc::Global;

/// A walk along the calls of a module, which finds the functions that reach each other (Tarjan, 1972).
#[derive(Drop)]
struct Walk {
    /// By its id, the lowest number of an open function that a function is known to reach; 0 before it is entered.
    lows: Vec<u32>,
    /// By its id, the rank of a function; 0 while it is open.
    ranks: Vec<u32>,
    /// By its id, how deeply calls nest from a function on, by what was found of those that it calls.
    depths: Vec<u8>,
    open: Vec<u32>,
    frames: Vec<Frame>,
    entered: u32,
    closed: u32,
}

/// A function that is being walked: the number that it was entered as, and the instruction from which its calls are still to come.
#[derive(Clone, Copy)]
struct Frame {
    id: u32,
    number: u32,
    at: u32,
}

/// A rank and a depth for each id. The walk takes nine bytes for each id below the bound.
pub(crate) fn walked(
    alloc: Global,
    definitions: &Definitions<'_>,
) -> Result<(Vec<u32>, Vec<u8>), Memory>
    requires { length definitions.now.instrs < 2 ^ 32 }
{
    let of = definitions.module();
    let mut walk = Walk {
        lows: vec![in alloc; 0; of.bound as usize]?,
        ranks: vec![in alloc; 0; of.bound as usize]?,
        depths: vec![in alloc; 0; of.bound as usize]?,
        open: Vec::new(alloc),
        frames: Vec::new(alloc),
        entered: 0,
        closed: 0,
    };
    // Each call is followed once, and each function left once, where none begins within another.
    let mut left = of.instrs.len() as u64 * 2;
    let mut at = 0;
    while (at as usize) < of.instrs.len() {
        if let Kind::Begins { id, .. } = kind_of(of, at) {
            left = walk_from(&mut walk, definitions, id, left)?;
        }
        at += 1;
    }
    Ok((walk.ranks, walk.depths))
}

/// Walks from a function, if it was not entered, in so many steps at most, and tells how many are left.
fn walk_from(
    walk: &mut Walk,
    definitions: &Definitions<'_>,
    id: u32,
    left: u64,
) -> Result<u64, Memory>
    requires { length definitions.now.instrs < 2 ^ 32 }
{
    let mut left = left;
    if word_at(&walk.lows, id) == 0 {
        walk.enter(definitions, id)?;
    }
    while left > 0 {
        left -= 1;
        match walk.frames.pop() {
            Some(frame) => walk.step(definitions, frame)?,
            None => return Ok(left),
        }
    }
    Ok(left)
}

impl Walk {
    /// Follows the next call of a function, or leaves it.
    fn step(&mut self, definitions: &Definitions<'_>, frame: Frame) -> Result<(), Memory>
        requires { length definitions.now.instrs < 2 ^ 32 }
    {
        match next_call(definitions.module(), frame.at) {
            Some((callee, at)) => {
                self.frames.push(Frame {
                    id: frame.id,
                    number: frame.number,
                    at,
                })?;
                self.call(definitions, frame.id, callee)
            }
            None => {
                self.leave(frame);
                Ok(())
            }
        }
    }

    /// Goes into a function that another calls, or notes that this reaches it.
    fn call(&mut self, definitions: &Definitions<'_>, id: u32, callee: u32) -> Result<(), Memory> {
        let low = word_at(&self.lows, callee);
        if low == 0 {
            return self.enter(definitions, callee);
        }
        if word_at(&self.ranks, callee) == 0 {
            self.lower(id, low);
        }
        self.deepen(id, callee);
        Ok(())
    }

    /// Enters a function.
    fn enter(&mut self, definitions: &Definitions<'_>, id: u32) -> Result<(), Memory> {
        if is_function(definitions, id) {
            self.entered = self.entered.saturating_add(1);
            put_word(&mut self.lows, id, self.entered);
            self.open.push(id)?;
            self.frames.push(Frame {
                id,
                number: self.entered,
                at: definitions.number(id),
            })?;
        }
        Ok(())
    }

    /// Leaves a function: those that it reaches and that reach it have been found, if it is the first of them.
    fn leave(&mut self, frame: Frame) {
        let low = word_at(&self.lows, frame.id);
        if low == frame.number {
            self.close(frame.id);
        }
        if let Some(caller) = self.caller() {
            self.deepen(caller, frame.id);
            if low != frame.number {
                self.lower(caller, low);
            }
        }
    }

    /// Notes how deeply calls nest from a function on that calls another: without end, if that is still open.
    fn deepen(&mut self, id: u32, callee: u32) {
        let found = if word_at(&self.ranks, callee) == 0 {
            DEEP
        } else {
            one_more(byte_at(&self.depths, callee))
        };
        let depth = deeper(byte_at(&self.depths, id), found);
        put_byte(&mut self.depths, id, depth);
    }

    /// The function whose calls are being followed.
    fn caller(&self) -> Option<u32> {
        match self.frames.last() {
            Some(frame) => Some(frame.id),
            None => None,
        }
    }

    /// Gives the next rank to the functions that were opened since one was, and to that one.
    fn close(&mut self, id: u32) {
        self.closed = self.closed.saturating_add(1);
        while let Some(last) = self.open.pop() {
            put_word(&mut self.ranks, last, self.closed);
            if last == id {
                return;
            }
        }
    }

    /// Notes that a function reaches one of a number.
    fn lower(&mut self, id: u32, low: u32) {
        if low < word_at(&self.lows, id) {
            put_word(&mut self.lows, id, low);
        }
    }
}
