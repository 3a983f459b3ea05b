//! Statements (GLSL 4.50, 6). The rules take the reader of nested statements as a parameter, so that
//! each is proved by itself.

ghost use Rattle.std.specs.Prelude.{◌≡◌};
ghost use Rattle.gsl_expr.specs.Reading.{Reads};
ghost use Rattle.gsl_parse.specs.Statements as spec;
ghost use Rattle.gsl_parse.specs.Within.{Within};
ghost use Rattle.gsl_parse.specs.declared.opening.Opening.TheVariants as opening;

use crate::opening::{Opening, next_opening};
use crate::qualifier::qualifiers;
use crate::variable::{header, local_from, phrase};
use gsl_base::{Boxed, Key, List, Place, Punct};
use gsl_expr::{Cursor, Stop, expr, with};
use gsl_syntax::{Expr, ForInit, Stmt, Stmts};
use std::alloc::Global;

/// Takes this keyword.
#[tactic(auto, unfolding(crate::specs::Statements::expect_key))]
fn expect_key(tokens: &mut Cursor<'_>, key: Key) -> Result<Place, Stop>
    ensures { Reads (spec.expect_key key tokens.old.left) result tokens.old tokens.new }
{
    if !tokens.sees_key(key) {
        return Err(Stop::Bad);
    }
    tokens.take_one()
}

/// An expression in parentheses.
#[tactic(auto, unfolding(crate::specs::Statements::condition))]
fn test(alloc: Global, tokens: &mut Cursor<'_>, depth: usize) -> Result<Expr, Stop>
    ensures { Reads (spec.condition depth tokens.old.left) result tokens.old tokens.new }
{
    tokens.expect(Punct::LeftParen)?;
    let tree = expr(alloc, tokens, depth, 0)?;
    let (_, tree) = with(tokens.expect(Punct::RightParen), tree)?;
    Ok(tree)
}

/// An expression or none, with the punctuator that ends it.
#[tactic(auto, unfolding(crate::specs::Statements::optional))]
fn optional(
    alloc: Global,
    tokens: &mut Cursor<'_>,
    depth: usize,
    end: Punct,
) -> Result<Option<Expr>, Stop>
    ensures { Reads (spec.optional depth end tokens.old.left) result tokens.old tokens.new }
{
    if tokens.sees(end) {
        tokens.take_one()?;
        return Ok(None);
    }
    let tree = expr(alloc, tokens, depth, 0)?;
    let (_, tree) = with(tokens.expect(end), tree)?;
    Ok(Some(tree))
}

/// What stands behind `return`.
#[tactic(auto, unfolding(crate::specs::Statements::returned))]
fn returned(
    alloc: Global,
    place: Place,
    tokens: &mut Cursor<'_>,
    depth: usize,
) -> Result<Stmt, Stop>
    ensures { Reads (spec.returned depth place tokens.old.left) result tokens.old tokens.new }
{
    if tokens.sees(Punct::Semicolon) {
        tokens.take_one()?;
        return Ok(Stmt::Return(place));
    }
    let tree = expr(alloc, tokens, depth, 0)?;
    let (_, tree) = with(tokens.expect(Punct::Semicolon), tree)?;
    Ok(Stmt::ReturnValue(place, tree))
}

fn stmt_of(phrase: ForInit) -> Stmt
    ensures { result ≡ spec.stmt_of phrase }
{
    match phrase {
        ForInit::Empty(place) => Stmt::Empty(place),
        ForInit::Expr(tree) => Stmt::Expr(tree),
        ForInit::Decl(tree) => Stmt::Decl(tree),
    }
}

/// The rules, over a reader of statements that nest no deeper than `depth`.
#[derive(Clone, Copy)]
pub(crate) struct Rules<F> {
    alloc: Global,
    depth: usize,
    statement: F,
}

impl<F: Fn(Global, &mut Cursor<'_>, usize) -> Result<Stmt, Stop>> Rules<F> {
    /// A nested statement.
    fn nested(&self, tokens: &mut Cursor<'_>) -> Result<Stmt, Stop>
        requires { Within self.now.depth (F.pre self.now.statement) (F.post self.now.statement) }
        ensures { Reads (spec.statement self.now.depth tokens.old.left) result tokens.old tokens.new }
    {
        (self.statement)(self.alloc, tokens, self.depth)
    }

    /// A nested statement, in a box of its own.
    fn boxed(&self, tokens: &mut Cursor<'_>) -> Result<Boxed<Stmt>, Stop>
        requires { Within self.now.depth (F.pre self.now.statement) (F.post self.now.statement) }
        ensures { Reads (spec.statement self.now.depth tokens.old.left) result tokens.old tokens.new }
    {
        let tree = self.nested(tokens)?;
        Ok(Boxed::new(self.alloc, tree)?)
    }

    /// Statements, with the brace that closes them.
    fn statements(&self, tokens: &mut Cursor<'_>) -> Result<Stmts, Stop>
        requires { Within self.now.depth (F.pre self.now.statement) (F.post self.now.statement) }
        ensures { Reads (spec.statements_of (spec.statement self.now.depth) tokens.old.left) result tokens.old tokens.new }
    {
        let mut found = List::new(self.alloc);
        for _turn in 0..usize::MAX {
            if tokens.sees(Punct::RightBrace) {
                tokens.take_one()?;
                return Ok(found);
            }
            let item = self.nested(tokens)?;
            found.push(item)?;
        }
        Err(Stop::Memory)
    }

    fn empty(&self, tokens: &mut Cursor<'_>) -> Result<Stmt, Stop>
        ensures { Reads (spec.statement_as self.now.depth (spec.statement self.now.depth) opening.Empty tokens.old.left) result tokens.old tokens.new }
    {
        Ok(Stmt::Empty(tokens.take_one()?))
    }

    fn block(&self, tokens: &mut Cursor<'_>) -> Result<Stmt, Stop>
        requires { Within self.now.depth (F.pre self.now.statement) (F.post self.now.statement) }
        ensures { Reads (spec.statement_as self.now.depth (spec.statement self.now.depth) opening.Block tokens.old.left) result tokens.old tokens.new }
    {
        let place = tokens.take_one()?;
        Ok(Stmt::Block(place, self.statements(tokens)?))
    }

    /// What stands behind the statement of an `if`.
    #[tactic(auto, unfolding(crate::specs::Statements::alternative))]
    fn alternative(
        &self,
        place: Place,
        test: Expr,
        then: Boxed<Stmt>,
        tokens: &mut Cursor<'_>,
    ) -> Result<Stmt, Stop>
        requires { Within self.now.depth (F.pre self.now.statement) (F.post self.now.statement) }
        ensures { Reads (spec.alternative self.now.depth (spec.statement self.now.depth) place test then tokens.old.left) result tokens.old tokens.new }
    {
        if !tokens.sees_key(Key::Else) {
            return Ok(Stmt::If(place, test, then));
        }
        let (_, (test, then)) = with(tokens.take_one(), (test, then))?;
        let (other, (test, then)) = with(self.boxed(tokens), (test, then))?;
        Ok(Stmt::IfElse(place, test, then, other))
    }

    fn branch(&self, tokens: &mut Cursor<'_>) -> Result<Stmt, Stop>
        requires { Within self.now.depth (F.pre self.now.statement) (F.post self.now.statement) }
        ensures { Reads (spec.statement_as self.now.depth (spec.statement self.now.depth) opening.If tokens.old.left) result tokens.old tokens.new }
    {
        let place = tokens.take_one()?;
        let test = test(self.alloc, tokens, self.depth)?;
        let (then, test) = with(self.boxed(tokens), test)?;
        self.alternative(place, test, then, tokens)
    }

    fn switch(&self, tokens: &mut Cursor<'_>) -> Result<Stmt, Stop>
        requires { Within self.now.depth (F.pre self.now.statement) (F.post self.now.statement) }
        ensures { Reads (spec.statement_as self.now.depth (spec.statement self.now.depth) opening.Switch tokens.old.left) result tokens.old tokens.new }
    {
        let place = tokens.take_one()?;
        let test = test(self.alloc, tokens, self.depth)?;
        let (_, test) = with(tokens.expect(Punct::LeftBrace), test)?;
        let (found, test) = with(self.statements(tokens), test)?;
        Ok(Stmt::Switch(place, test, found))
    }

    fn case(&self, tokens: &mut Cursor<'_>) -> Result<Stmt, Stop>
        ensures { Reads (spec.statement_as self.now.depth (spec.statement self.now.depth) opening.Case tokens.old.left) result tokens.old tokens.new }
    {
        let place = tokens.take_one()?;
        let label = expr(self.alloc, tokens, self.depth, 2)?;
        let (_, label) = with(tokens.expect(Punct::Colon), label)?;
        Ok(Stmt::Case(place, label))
    }

    fn default(&self, tokens: &mut Cursor<'_>) -> Result<Stmt, Stop>
        ensures { Reads (spec.statement_as self.now.depth (spec.statement self.now.depth) opening.Default tokens.old.left) result tokens.old tokens.new }
    {
        let place = tokens.take_one()?;
        tokens.expect(Punct::Colon)?;
        Ok(Stmt::Default(place))
    }

    fn while_loop(&self, tokens: &mut Cursor<'_>) -> Result<Stmt, Stop>
        requires { Within self.now.depth (F.pre self.now.statement) (F.post self.now.statement) }
        ensures { Reads (spec.statement_as self.now.depth (spec.statement self.now.depth) opening.While tokens.old.left) result tokens.old tokens.new }
    {
        let place = tokens.take_one()?;
        let test = test(self.alloc, tokens, self.depth)?;
        let (body, test) = with(self.boxed(tokens), test)?;
        Ok(Stmt::While(place, test, body))
    }

    fn do_loop(&self, tokens: &mut Cursor<'_>) -> Result<Stmt, Stop>
        requires { Within self.now.depth (F.pre self.now.statement) (F.post self.now.statement) }
        ensures { Reads (spec.statement_as self.now.depth (spec.statement self.now.depth) opening.Do tokens.old.left) result tokens.old tokens.new }
    {
        let place = tokens.take_one()?;
        let body = self.boxed(tokens)?;
        let (_, body) = with(expect_key(tokens, Key::While), body)?;
        let (test, body) = with(test(self.alloc, tokens, self.depth), body)?;
        let (_, (body, test)) = with(tokens.expect(Punct::Semicolon), (body, test))?;
        Ok(Stmt::Do(place, body, test))
    }

    fn for_loop(&self, tokens: &mut Cursor<'_>) -> Result<Stmt, Stop>
        requires { Within self.now.depth (F.pre self.now.statement) (F.post self.now.statement) }
        ensures { Reads (spec.statement_as self.now.depth (spec.statement self.now.depth) opening.For tokens.old.left) result tokens.old tokens.new }
    {
        let place = tokens.take_one()?;
        tokens.expect(Punct::LeftParen)?;
        let init = header(self.alloc, tokens, self.depth)?;
        self.for_test(place, init, tokens)
    }

    fn for_test(&self, place: Place, init: ForInit, tokens: &mut Cursor<'_>) -> Result<Stmt, Stop>
        requires { Within self.now.depth (F.pre self.now.statement) (F.post self.now.statement) }
        ensures { Reads (spec.for_test self.now.depth (spec.statement self.now.depth) place init tokens.old.left) result tokens.old tokens.new }
    {
        let (test, init) = with(
            optional(self.alloc, tokens, self.depth, Punct::Semicolon),
            init,
        )?;
        self.for_step(place, init, test, tokens)
    }

    fn for_step(
        &self,
        place: Place,
        init: ForInit,
        test: Option<Expr>,
        tokens: &mut Cursor<'_>,
    ) -> Result<Stmt, Stop>
        requires { Within self.now.depth (F.pre self.now.statement) (F.post self.now.statement) }
        ensures { Reads (spec.for_step self.now.depth (spec.statement self.now.depth) place init test tokens.old.left) result tokens.old tokens.new }
    {
        let (step, (init, test)) = with(
            optional(self.alloc, tokens, self.depth, Punct::RightParen),
            (init, test),
        )?;
        self.for_body(place, init, test, step, tokens)
    }

    fn for_body(
        &self,
        place: Place,
        init: ForInit,
        test: Option<Expr>,
        step: Option<Expr>,
        tokens: &mut Cursor<'_>,
    ) -> Result<Stmt, Stop>
        requires { Within self.now.depth (F.pre self.now.statement) (F.post self.now.statement) }
        ensures { Reads (spec.for_body self.now.depth (spec.statement self.now.depth) place init test step tokens.old.left) result tokens.old tokens.new }
    {
        let (body, (init, (test, step))) = with(self.boxed(tokens), (init, (test, step)))?;
        Ok(Stmt::For(place, init, test, step, body))
    }

    fn break_out(&self, tokens: &mut Cursor<'_>) -> Result<Stmt, Stop>
        ensures { Reads (spec.statement_as self.now.depth (spec.statement self.now.depth) opening.Break tokens.old.left) result tokens.old tokens.new }
    {
        Ok(Stmt::Break(word(tokens)?))
    }

    fn continue_on(&self, tokens: &mut Cursor<'_>) -> Result<Stmt, Stop>
        ensures { Reads (spec.statement_as self.now.depth (spec.statement self.now.depth) opening.Continue tokens.old.left) result tokens.old tokens.new }
    {
        Ok(Stmt::Continue(word(tokens)?))
    }

    fn discard(&self, tokens: &mut Cursor<'_>) -> Result<Stmt, Stop>
        ensures { Reads (spec.statement_as self.now.depth (spec.statement self.now.depth) opening.Discard tokens.old.left) result tokens.old tokens.new }
    {
        Ok(Stmt::Discard(word(tokens)?))
    }

    fn return_out(&self, tokens: &mut Cursor<'_>) -> Result<Stmt, Stop>
        ensures { Reads (spec.statement_as self.now.depth (spec.statement self.now.depth) opening.Return tokens.old.left) result tokens.old tokens.new }
    {
        let place = tokens.take_one()?;
        returned(self.alloc, place, tokens, self.depth)
    }

    fn local(&self, tokens: &mut Cursor<'_>) -> Result<Stmt, Stop>
        ensures { Reads (spec.statement_as self.now.depth (spec.statement self.now.depth) opening.Local tokens.old.left) result tokens.old tokens.new }
    {
        let quals = qualifiers(self.alloc, tokens, self.depth)?;
        Ok(Stmt::Decl(local_from(self.alloc, quals, tokens, self.depth)?))
    }

    fn phrase(&self, tokens: &mut Cursor<'_>) -> Result<Stmt, Stop>
        ensures { Reads (spec.statement_as self.now.depth (spec.statement self.now.depth) opening.Phrase tokens.old.left) result tokens.old tokens.new }
    {
        Ok(stmt_of(phrase(self.alloc, tokens, self.depth)?))
    }

    fn whole(&self, tokens: &mut Cursor<'_>) -> Result<Stmt, Stop>
        requires { Within self.now.depth (F.pre self.now.statement) (F.post self.now.statement) }
        ensures { Reads (spec.statement_whole self.now.depth (spec.statement self.now.depth) tokens.old.left) result tokens.old tokens.new }
    {
        match next_opening(tokens) {
            Opening::Empty => self.empty(tokens),
            Opening::Block => self.block(tokens),
            Opening::If => self.branch(tokens),
            Opening::Switch => self.switch(tokens),
            Opening::Case => self.case(tokens),
            Opening::Default => self.default(tokens),
            Opening::While => self.while_loop(tokens),
            Opening::Do => self.do_loop(tokens),
            Opening::For => self.for_loop(tokens),
            Opening::Break => self.break_out(tokens),
            Opening::Continue => self.continue_on(tokens),
            Opening::Discard => self.discard(tokens),
            Opening::Return => self.return_out(tokens),
            Opening::Local => self.local(tokens),
            Opening::Phrase => self.phrase(tokens),
        }
    }
}

/// A word with its semicolon.
fn word(tokens: &mut Cursor<'_>) -> Result<Place, Stop>
    ensures { Reads (spec.word tokens.old.left) result tokens.old tokens.new }
{
    let place = tokens.take_one()?;
    tokens.expect(Punct::Semicolon)?;
    Ok(place)
}

/// A statement that nests no deeper than `depth`.
pub(crate) fn statement(alloc: Global, tokens: &mut Cursor<'_>, depth: usize) -> Result<Stmt, Stop>
    ensures { Reads (spec.statement depth tokens.old.left) result tokens.old tokens.new }
{
    if depth == 0 {
        return Err(Stop::Bad);
    }
    Rules {
        alloc,
        depth: depth - 1,
        statement,
    }
    .whole(tokens)
}

/// Statements that nest no deeper than `depth`, with the brace that closes them.
pub(crate) fn statements(
    alloc: Global,
    tokens: &mut Cursor<'_>,
    depth: usize,
) -> Result<Stmts, Stop>
    ensures { Reads (spec.statements_of (spec.statement depth) tokens.old.left) result tokens.old tokens.new }
{
    Rules {
        alloc,
        depth,
        statement,
    }
    .statements(tokens)
}
