//! Ranks of functions by their calls: those that reach each other have one rank, and what they call besides has a lower one. Nothing is promised
//! of them here: `graph.rt` checks them.

use crate::rows::{put_word, word_at};
use crate::table::CallTable;
use gsl_base::Memory;
use std::alloc::Global;

/// A walk along calls, which finds the functions that reach each other (Tarjan, 1972).
#[derive(Drop)]
struct Walk {
    /// By its head, the lowest number of an open function that a function is known to reach; 0 before it is entered.
    lows: Vec<u32>,
    /// By its head, the rank of a function; 0 while it is open.
    ranks: Vec<u32>,
    open: Vec<u32>,
    frames: Vec<Frame>,
    entered: u32,
    closed: u32,
}

/// A function that is being walked: the number that it was entered as, and how many of its calls were followed.
#[derive(Clone, Copy)]
struct Frame {
    head: u32,
    number: u32,
    at: usize,
}

/// A rank for each head.
pub(crate) fn ranks_of(alloc: Global, table: &CallTable<'_>) -> Result<Vec<u32>, Memory> {
    let mut walk = Walk {
        lows: vec![in alloc; 0; table.heads()]?,
        ranks: vec![in alloc; 0; table.heads()]?,
        open: Vec::new(alloc),
        frames: Vec::new(alloc),
        entered: 0,
        closed: 0,
    };
    let functions = table.functions();
    let mut left = steps(table);
    for k in 0..functions.len() {
        left = walk_from(&mut walk, table, functions[k].prototype, left)?;
    }
    Ok(walk.ranks)
}

/// How many steps a walk takes: each call is followed once, and each function left once.
fn steps(table: &CallTable<'_>) -> u64 {
    let functions = table.functions();
    let mut count = 0u64;
    for k in 0..functions.len() {
        let calls = table.callees(functions[k].prototype as usize).len() as u64;
        count = count.saturating_add(calls).saturating_add(2);
    }
    count
}

/// Walks from a function, if it was not entered, in so many steps at most, and tells how many are left.
fn walk_from(walk: &mut Walk, table: &CallTable<'_>, head: u32, left: u64) -> Result<u64, Memory> {
    let mut left = left;
    if word_at(&walk.lows, head) == 0 {
        walk.enter(head)?;
    }
    while left > 0 {
        left -= 1;
        match walk.frames.pop() {
            Some(frame) => walk.step(table, frame)?,
            None => return Ok(left),
        }
    }
    Ok(left)
}

/// The head that a function calls next.
fn next_call(table: &CallTable<'_>, frame: Frame) -> Option<u32> {
    match table.callees(frame.head as usize).get(frame.at) {
        Some(head) => Some(*head),
        None => None,
    }
}

impl Walk {
    /// Follows the next call of a function, or leaves it.
    fn step(&mut self, table: &CallTable<'_>, frame: Frame) -> Result<(), Memory> {
        match next_call(table, frame) {
            Some(callee) => {
                self.frames.push(Frame {
                    head: frame.head,
                    number: frame.number,
                    at: frame.at.saturating_add(1),
                })?;
                self.call(frame.head, callee)
            }
            None => {
                self.leave(frame);
                Ok(())
            }
        }
    }

    /// Goes into a function that another calls, or notes that this reaches it.
    fn call(&mut self, head: u32, callee: u32) -> Result<(), Memory> {
        let low = word_at(&self.lows, callee);
        if low == 0 {
            return self.enter(callee);
        }
        if word_at(&self.ranks, callee) == 0 {
            self.lower(head, low);
        }
        Ok(())
    }

    /// Enters a function, if there may be one of the head.
    fn enter(&mut self, head: u32) -> Result<(), Memory> {
        if (head as usize) < self.lows.len() {
            self.entered = self.entered.saturating_add(1);
            put_word(&mut self.lows, head, self.entered);
            self.open.push(head)?;
            self.frames.push(Frame {
                head,
                number: self.entered,
                at: 0,
            })?;
        }
        Ok(())
    }

    /// Leaves a function: those that it reaches and that reach it have been found, if it is the first of them.
    fn leave(&mut self, frame: Frame) {
        let low = word_at(&self.lows, frame.head);
        if low == frame.number {
            self.close(frame.head);
        } else if let Some(caller) = self.caller() {
            self.lower(caller, low);
        }
    }

    /// The function whose calls are being followed.
    fn caller(&self) -> Option<u32> {
        match self.frames.last() {
            Some(frame) => Some(frame.head),
            None => None,
        }
    }

    /// Gives the next rank to the functions that were opened since one was, and to that one.
    fn close(&mut self, head: u32) {
        self.closed = self.closed.saturating_add(1);
        while let Some(last) = self.open.pop() {
            put_word(&mut self.ranks, last, self.closed);
            if last == head {
                return;
            }
        }
    }

    /// Notes that a function reaches one of a number.
    fn lower(&mut self, head: u32, low: u32) {
        if low < word_at(&self.lows, head) {
            put_word(&mut self.lows, head, low);
        }
    }
}
