//! Lists of items.

ghost use Rattle.std.specs.Prelude.{◌≡◌, ℕ, Bool, [], ◌∷◌, length};
ghost use Rattle.gsl_expr.specs.Reading.{Tokens, Parser, Reads};
ghost use Rattle.gsl_parse.specs.Lists as spec;
ghost use Rattle.gsl_parse.specs.Lists.{Shrinks, Takes};

use gsl_base::{List, Punct};
use gsl_expr::{Cursor, Stop};
use std::alloc::Global;

/// What is read from tokens, with expressions that nest no deeper than `depth`.
pub(crate) trait Item: Sized + Drop {
    /// How it is read.
    ghost reader: { ℕ → Parser Self };

    fn read(alloc: Global, tokens: &mut Cursor<'_>, depth: usize) -> Result<Self, Stop>
        ensures { Reads (reader depth tokens.old.left) result tokens.old tokens.new };
}

/// An item that stands behind others of its kind, with nothing between.
pub(crate) trait Repeated: Item {
    /// Where one begins.
    ghost starts: { Tokens → Bool };

    fn begins(tokens: &Cursor<'_>) -> bool
        ensures { result ≡ starts tokens.now.left };
}

/// As many as begin, behind those that were found.
pub(crate) fn row<T: Repeated>(
    alloc: Global,
    first: List<T>,
    tokens: &mut Cursor<'_>,
    depth: usize,
) -> Result<List<T>, Stop>
    requires { Takes T.starts (T.reader depth) }
    ensures { Reads (spec.row T.starts (T.reader depth) (length tokens.old.left) first tokens.old.left) result tokens.old tokens.new }
{
    let mut found = first;
    for _turn in 0..usize::MAX {
        if !T::begins(tokens) {
            return Ok(found);
        }
        let item = T::read(alloc, tokens, depth)?;
        found.push(item)?;
    }
    Err(Stop::Memory)
}

/// As many as stand behind commas, behind those that were found.
pub(crate) fn further<T: Item>(
    alloc: Global,
    first: List<T>,
    tokens: &mut Cursor<'_>,
    depth: usize,
) -> Result<List<T>, Stop>
    requires { Shrinks (T.reader depth) }
    ensures { Reads (spec.further (T.reader depth) (length tokens.old.left) first tokens.old.left) result tokens.old tokens.new }
{
    let mut found = first;
    for _turn in 0..usize::MAX {
        if !tokens.sees(Punct::Comma) {
            return Ok(found);
        }
        tokens.take_one()?;
        let item = T::read(alloc, tokens, depth)?;
        found.push(item)?;
    }
    Err(Stop::Memory)
}

/// As many as begin.
pub(crate) fn row_of<T: Repeated>(
    alloc: Global,
    tokens: &mut Cursor<'_>,
    depth: usize,
) -> Result<List<T>, Stop>
    requires { Takes T.starts (T.reader depth) }
    ensures { Reads (spec.row_of T.starts (T.reader depth) tokens.old.left) result tokens.old tokens.new }
{
    row(alloc, List::new(alloc), tokens, depth)
}

/// One, and then as many as begin.
pub(crate) fn some_of<T: Repeated>(
    alloc: Global,
    tokens: &mut Cursor<'_>,
    depth: usize,
) -> Result<List<T>, Stop>
    requires { Takes T.starts (T.reader depth) }
    ensures { Reads (spec.some_of T.starts (T.reader depth) tokens.old.left) result tokens.old tokens.new }
{
    let item = T::read(alloc, tokens, depth)?;
    let mut found = List::new(alloc);
    found.push(item)?;
    row(alloc, found, tokens, depth)
}

/// As many as stand behind commas, behind the first.
pub(crate) fn further_of<T: Item>(
    alloc: Global,
    item: T,
    tokens: &mut Cursor<'_>,
    depth: usize,
) -> Result<List<T>, Stop>
    requires { Shrinks (T.reader depth) }
    ensures { Reads (spec.further_of (T.reader depth) item tokens.old.left) result tokens.old tokens.new }
{
    let mut found = List::new(alloc);
    found.push(item)?;
    further(alloc, found, tokens, depth)
}

/// One or more with commas between.
pub(crate) fn commas_of<T: Item>(
    alloc: Global,
    tokens: &mut Cursor<'_>,
    depth: usize,
) -> Result<List<T>, Stop>
    requires { Shrinks (T.reader depth) }
    ensures { Reads (spec.commas_of (T.reader depth) tokens.old.left) result tokens.old tokens.new }
{
    let item = T::read(alloc, tokens, depth)?;
    further_of(alloc, item, tokens, depth)
}
