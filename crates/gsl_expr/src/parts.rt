//! The halves of an expression, for what may begin with one.

ghost use Rattle.std.specs.Prelude.{◌≡◌};
ghost use Rattle.gsl_expr.specs.Expressions as spec;
ghost use Rattle.gsl_expr.specs.Reading.{Reads};

use crate::grammar::{Grammar, expr};
use crate::reading::Cursor;
use crate::rule::Head;
use crate::stop::Stop;
use gsl_syntax::{Basic, Dims, Expr};
use std::alloc::Global;

/// The brackets of a type, or of a declared name.
pub fn dims(alloc: Global, tokens: &mut Cursor<'_>, depth: usize) -> Result<Dims, Stop>
    ensures { Reads (spec.dims (spec.expr depth) tokens.old.left) result tokens.old tokens.new }
{
    Grammar { alloc, depth, expr }.dims(tokens)
}

/// A name with its brackets, be they those of a type or indexes.
pub fn named_head(alloc: Global, tokens: &mut Cursor<'_>, depth: usize) -> Result<Head, Stop>
    ensures { Reads (spec.named_head (spec.expr depth) tokens.old.left) result tokens.old tokens.new }
{
    Grammar { alloc, depth, expr }.named_head(tokens)
}

/// A type keyword with its brackets.
pub fn basic_head(
    alloc: Global,
    basic: Basic,
    tokens: &mut Cursor<'_>,
    depth: usize,
) -> Result<Head, Stop>
    ensures { Reads (spec.basic_head (spec.expr depth) basic tokens.old.left) result tokens.old tokens.new }
{
    Grammar { alloc, depth, expr }.basic_head(basic, tokens)
}

/// The operand that begins with a name or a type: a call, or an index of a name.
pub fn applied(
    alloc: Global,
    head: Head,
    tokens: &mut Cursor<'_>,
    depth: usize,
) -> Result<Expr, Stop>
    ensures { Reads (spec.applied (spec.expr depth) head tokens.old.left) result tokens.old tokens.new }
{
    Grammar { alloc, depth, expr }.applied(head, tokens)
}

/// The expression of a level that begins with this operand.
pub fn completed(
    alloc: Global,
    least: u8,
    first: Expr,
    tokens: &mut Cursor<'_>,
    depth: usize,
) -> Result<Expr, Stop>
    ensures { Reads (spec.completed (spec.expr depth) least first tokens.old.left) result tokens.old tokens.new }
{
    Grammar { alloc, depth, expr }.completed(least, first, tokens)
}
