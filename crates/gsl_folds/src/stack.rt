//! Expressions that were read and are not yet parts of others.

use crate::misread::Misread;
use gsl_base::{Boxed, Memory, Place};
use gsl_tree::{Expr, ExprKind, Exprs};
use gsl_types::Ty;
use std::alloc::Global;

#[derive(Drop)]
pub struct Stack {
    alloc: Global,
    held: Exprs,
}

impl Stack {
    pub fn new(alloc: Global) -> Stack {
        Stack {
            alloc,
            held: Exprs::new(alloc),
        }
    }

    pub fn alloc(&self) -> Global {
        self.alloc
    }

    pub fn push(&mut self, ty: Ty, kind: ExprKind) -> Result<(), Memory> {
        self.held.push(Expr {
            ty,
            place: Place { unit: 0, line: 1 },
            kind,
        })
    }

    /// Takes the last expression off.
    pub fn pop(&mut self) -> Result<Expr, Misread> {
        match self.held.pop() {
            Some(e) => Ok(e),
            None => Err(Misread::Form),
        }
    }

    pub fn boxed(&mut self) -> Result<Boxed<Expr>, Misread> {
        let e = self.pop()?;
        Ok(Boxed::new(self.alloc, e)?)
    }

    /// Takes the last so many expressions off, and gives them in their order.
    pub fn last(&mut self, count: u32) -> Result<Exprs, Misread> {
        let mut turned = Exprs::new(self.alloc);
        for _ in 0..count {
            turned.push(self.pop()?)?;
        }
        let mut found = Exprs::new(self.alloc);
        for _ in 0..count {
            if let Some(e) = turned.pop() {
                found.push(e)?;
            }
        }
        Ok(found)
    }

    /// The only expression that is left.
    pub fn only(mut self) -> Result<Expr, Misread> {
        let e = self.pop()?;
        if self.held.is_empty() {
            Ok(e)
        } else {
            Err(Misread::Form)
        }
    }
}
