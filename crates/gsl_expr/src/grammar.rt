//! The rules of expressions and types. They take the reader of nested expressions as a parameter, so
//! that each is proved by itself.

ghost use Rattle.std.specs.Prelude.{◌≡◌, ◌<◌, [], length};
ghost use Rattle.gsl_expr.specs.Expressions as spec;
ghost use Rattle.gsl_expr.specs.Reading.{Reads};
ghost use Rattle.gsl_expr.specs.Nests.{Nests};
ghost use Rattle.gsl_expr.specs.declared.rule.Follow.TheVariants as follow;
ghost use Rattle.gsl_expr.specs.declared.rule.Start.TheVariants as start;
ghost use Rattle.gsl_expr.specs.declared.rule.Tail.TheVariants as tail;

use crate::held::with;
use crate::nodes::{
    assign, binary, conditional, give_up, head_type, index, index_all, is_tight, keyword, level_in,
    may_be_index, may_be_open, member_of, method_of, named, paren, postfix, sequence, sized, unary,
    void_alone,
};
use crate::reading::Cursor;
use crate::rule::{
    Base, Follow, Head, Mode, Start, Tail, binds, level, next_follow, next_start, next_tail,
};
use crate::stop::Stop;
use gsl_base::{Boxed, List, Place, Punct};
use gsl_syntax::{
    AssignOp, Basic, BinaryOp, Dim, Dims, Expr, Exprs, Name, PostfixOp, TypeSpec, UnaryOp,
};
use std::alloc::Global;

/// The rules, over a reader of expressions that nest no deeper than `depth`.
#[derive(Clone, Copy)]
pub struct Grammar<F> {
    pub alloc: Global,
    pub depth: usize,
    pub expr: F,
}

impl<F: Fn(Global, &mut Cursor<'_>, usize, u8) -> Result<Expr, Stop>> Grammar<F> {
    /// An expression of a level.
    pub fn expr(&self, tokens: &mut Cursor<'_>, least: u8) -> Result<Expr, Stop>
        requires { Nests self.now.depth (F.pre self.now.expr) (F.post self.now.expr) }
        ensures { Reads (spec.expr self.now.depth least tokens.old.left) result tokens.old tokens.new }
    {
        (self.expr)(self.alloc, tokens, self.depth, least)
    }

    /// What stands in brackets, behind `[`.
    #[tactic(auto, unfolding(crate::specs::Expressions::bracket))]
    fn bracket(
        &self,
        mode: Mode,
        place: Place,
        tokens: &mut Cursor<'_>,
    ) -> Result<(Dim, Mode), Stop>
        requires { Nests self.now.depth (F.pre self.now.expr) (F.post self.now.expr) }
        ensures { Reads (spec.bracket (spec.expr self.now.depth) mode place tokens.old.left) result tokens.old tokens.new }
    {
        if tokens.sees(Punct::RightBracket) && may_be_open(mode) {
            tokens.take_one()?;
            return Ok((Dim::Open(place), Mode::Type));
        }
        let size = self.expr(tokens, level_in(mode))?;
        let (_, size) = with(tokens.expect(Punct::RightBracket), size)?;
        Ok(sized(self.alloc, mode, place, size)?)
    }

    /// The brackets of a type, or of a declared name.
    #[tactic(auto, unfolding(crate::specs::Expressions::dims))]
    pub fn dims(&self, tokens: &mut Cursor<'_>) -> Result<Dims, Stop>
        requires { Nests self.now.depth (F.pre self.now.expr) (F.post self.now.expr) }
        ensures { Reads (spec.dims (spec.expr self.now.depth) tokens.old.left) result tokens.old tokens.new }
    {
        let (dims, _) = self.brackets(Mode::Type, tokens)?;
        Ok(dims)
    }

    /// A name with its brackets, be they those of a type or indexes.
    #[tactic(auto, unfolding(crate::specs::Expressions::named_head))]
    pub fn named_head(&self, tokens: &mut Cursor<'_>) -> Result<Head, Stop>
        requires { Nests self.now.depth (F.pre self.now.expr) (F.post self.now.expr) }
        ensures { Reads (spec.named_head (spec.expr self.now.depth) tokens.old.left) result tokens.old tokens.new }
    {
        let name = tokens.name()?;
        let (dims, mode) = self.brackets(Mode::Either, tokens)?;
        Ok(named(name, dims, mode))
    }

    /// A type keyword with its brackets.
    #[tactic(auto, unfolding(crate::specs::Expressions::basic_head))]
    pub fn basic_head(&self, basic: Basic, tokens: &mut Cursor<'_>) -> Result<Head, Stop>
        requires { Nests self.now.depth (F.pre self.now.expr) (F.post self.now.expr) }
        ensures { Reads (spec.basic_head (spec.expr self.now.depth) basic tokens.old.left) result tokens.old tokens.new }
    {
        let place = tokens.take_one()?;
        let dims = self.dims(tokens)?;
        Ok(keyword(place, basic, dims))
    }

    fn by_name(&self, tokens: &mut Cursor<'_>) -> Result<Expr, Stop>
        requires { Nests self.now.depth (F.pre self.now.expr) (F.post self.now.expr) }
        ensures { Reads (spec.operand_as (spec.expr self.now.depth) start.Name tokens.old.left) result tokens.old tokens.new }
    {
        let head = self.named_head(tokens)?;
        self.applied(head, tokens)
    }

    fn by_type(&self, basic: Basic, tokens: &mut Cursor<'_>) -> Result<Expr, Stop>
        requires { Nests self.now.depth (F.pre self.now.expr) (F.post self.now.expr) }
        ensures { Reads (spec.operand_as (spec.expr self.now.depth) (start.Basic basic) tokens.old.left) result tokens.old tokens.new }
    {
        let head = self.basic_head(basic, tokens)?;
        self.applied(head, tokens)
    }

    fn paren(&self, tokens: &mut Cursor<'_>) -> Result<Expr, Stop>
        requires { Nests self.now.depth (F.pre self.now.expr) (F.post self.now.expr) }
        ensures { Reads (spec.operand_as (spec.expr self.now.depth) start.Paren tokens.old.left) result tokens.old tokens.new }
    {
        let place = tokens.take_one()?;
        let inner = self.expr(tokens, 0)?;
        let (_, inner) = with(tokens.expect(Punct::RightParen), inner)?;
        Ok(paren(self.alloc, place, inner)?)
    }

    fn unary(&self, op: UnaryOp, tokens: &mut Cursor<'_>) -> Result<Expr, Stop>
        requires { Nests self.now.depth (F.pre self.now.expr) (F.post self.now.expr) }
        ensures { Reads (spec.operand_as (spec.expr self.now.depth) (start.Unary op) tokens.old.left) result tokens.old tokens.new }
    {
        let place = tokens.take_one()?;
        let inner = self.expr(tokens, 14)?;
        Ok(unary(self.alloc, place, op, inner)?)
    }

    #[tactic(auto, unfolding(crate::specs::Expressions::operand))]
    fn operand(&self, tokens: &mut Cursor<'_>) -> Result<Expr, Stop>
        requires { Nests self.now.depth (F.pre self.now.expr) (F.post self.now.expr) }
        ensures { Reads (spec.operand (spec.expr self.now.depth) tokens.old.left) result tokens.old tokens.new }
    {
        match next_start(tokens) {
            Start::Name => self.by_name(tokens),
            Start::Basic(basic) => self.by_type(basic, tokens),
            Start::Signed(word) => Ok(Expr::Signed(tokens.take_one()?, word)),
            Start::Unsigned(word) => Ok(Expr::Unsigned(tokens.take_one()?, word)),
            Start::Bool(value) => Ok(Expr::Bool(tokens.take_one()?, value)),
            Start::Paren => self.paren(tokens),
            Start::Unary(op) => self.unary(op, tokens),
            Start::Bad => Err(Stop::Bad),
        }
    }

    /// Any number of brackets.
    pub fn brackets(&self, first: Mode, tokens: &mut Cursor<'_>) -> Result<(Dims, Mode), Stop>
        requires { Nests self.now.depth (F.pre self.now.expr) (F.post self.now.expr) }
        ensures { Reads (spec.brackets (spec.expr self.now.depth) (length tokens.old.left) first [] tokens.old.left) result tokens.old tokens.new }
    {
        let mut found = List::new(self.alloc);
        let mut mode = first;
        for _turn in 0..usize::MAX {
            if !tokens.sees(Punct::LeftBracket) {
                return Ok((found, mode));
            }
            let place = tokens.take_one()?;
            let (dim, next) = self.bracket(mode, place, tokens)?;
            found.push(dim)?;
            mode = next;
        }
        Err(Stop::Memory)
    }

    /// One or more arguments, with the parenthesis that closes them.
    fn items(&self, tokens: &mut Cursor<'_>) -> Result<Exprs, Stop>
        requires { Nests self.now.depth (F.pre self.now.expr) (F.post self.now.expr) }
        ensures { Reads (spec.items (spec.expr self.now.depth) (length tokens.old.left) [] tokens.old.left) result tokens.old tokens.new }
    {
        let mut found = List::new(self.alloc);
        for _turn in 0..usize::MAX {
            let item = self.expr(tokens, 1)?;
            found.push(item)?;
            if !tokens.sees(Punct::Comma) {
                tokens.expect(Punct::RightParen)?;
                return Ok(found);
            }
            tokens.take_one()?;
        }
        Err(Stop::Memory)
    }

    /// A call, behind its parenthesis.
    #[tactic(auto, unfolding(crate::specs::Expressions::arguments))]
    fn arguments(&self, callee: TypeSpec, tokens: &mut Cursor<'_>) -> Result<Expr, Stop>
        requires { Nests self.now.depth (F.pre self.now.expr) (F.post self.now.expr) }
        ensures { Reads (spec.arguments (spec.expr self.now.depth) callee tokens.old.left) result tokens.old tokens.new }
    {
        let callee = Boxed::new(self.alloc, callee)?;
        if tokens.sees(Punct::RightParen) {
            let (_, callee) = with(tokens.take_one(), callee)?;
            return Ok(Expr::Call(callee, List::new(self.alloc)));
        }
        if void_alone(tokens) {
            return call_void(callee, tokens);
        }
        let (found, callee) = with(self.items(tokens), callee)?;
        Ok(Expr::Call(callee, found))
    }

    /// The operand that begins with a name or a type: a call, or an index of a name.
    #[tactic(auto, unfolding(crate::specs::Expressions::applied))]
    pub fn applied(&self, head: Head, tokens: &mut Cursor<'_>) -> Result<Expr, Stop>
        requires { Nests self.now.depth (F.pre self.now.expr) (F.post self.now.expr) }
        ensures { Reads (spec.applied (spec.expr self.now.depth) head tokens.old.left) result tokens.old tokens.new }
    {
        if tokens.sees(Punct::LeftParen) && may_be_open(head.mode) {
            let (_, callee) = with(tokens.take_one(), head_type(head))?;
            return self.arguments(callee, tokens);
        }
        if !may_be_index(head.mode) {
            give_up(head);
            return Err(Stop::Bad);
        }
        let Head {
            place,
            base,
            dims,
            ..
        } = head;
        match base {
            Base::Named(text) => Ok(index_all(self.alloc, Expr::Name(place, text), dims)?),
            Base::Basic(_) => {
                drop(dims);
                Err(Stop::Bad)
            }
        }
    }

    /// What stands behind `.` and a name.
    #[tactic(auto, unfolding(crate::specs::Expressions::selected))]
    fn selected(
        &self,
        place: Place,
        member: Name,
        left: Expr,
        tokens: &mut Cursor<'_>,
    ) -> Result<Expr, Stop>
        ensures { Reads (spec.selected place member left tokens.old.left) result tokens.old tokens.new }
    {
        let Name { text, .. } = member;
        if !tokens.sees(Punct::LeftParen) {
            return Ok(member_of(self.alloc, place, left, text)?);
        }
        let (_, (left, text)) = with(tokens.take_one(), (left, text))?;
        let (_, (left, text)) = with(tokens.expect(Punct::RightParen), (left, text))?;
        Ok(method_of(self.alloc, place, left, text)?)
    }

    fn indexed(&self, left: Expr, tokens: &mut Cursor<'_>) -> Result<Expr, Stop>
        requires { Nests self.now.depth (F.pre self.now.expr) (F.post self.now.expr) }
        ensures { Reads (spec.operate_as (spec.expr self.now.depth) left follow.Index tokens.old.left) result tokens.old tokens.new }
    {
        let (place, left) = with(tokens.take_one(), left)?;
        let (at, left) = with(self.expr(tokens, 0), left)?;
        let (_, (left, at)) = with(tokens.expect(Punct::RightBracket), (left, at))?;
        Ok(index(self.alloc, place, left, at)?)
    }

    fn member(&self, left: Expr, tokens: &mut Cursor<'_>) -> Result<Expr, Stop>
        requires { Nests self.now.depth (F.pre self.now.expr) (F.post self.now.expr) }
        ensures { Reads (spec.operate_as (spec.expr self.now.depth) left follow.Member tokens.old.left) result tokens.old tokens.new }
    {
        let (place, left) = with(tokens.take_one(), left)?;
        let (name, left) = with(tokens.name(), left)?;
        self.selected(place, name, left, tokens)
    }

    fn stepped(&self, op: PostfixOp, left: Expr, tokens: &mut Cursor<'_>) -> Result<Expr, Stop>
        requires { Nests self.now.depth (F.pre self.now.expr) (F.post self.now.expr) }
        ensures { Reads (spec.operate_as (spec.expr self.now.depth) left (follow.Postfix op) tokens.old.left) result tokens.old tokens.new }
    {
        let (place, left) = with(tokens.take_one(), left)?;
        Ok(postfix(self.alloc, place, op, left)?)
    }

    fn joined(&self, op: BinaryOp, left: Expr, tokens: &mut Cursor<'_>) -> Result<Expr, Stop>
        requires { Nests self.now.depth (F.pre self.now.expr) (F.post self.now.expr) }
        ensures { Reads (spec.operate_as (spec.expr self.now.depth) left (follow.Binary op) tokens.old.left) result tokens.old tokens.new }
    {
        let (place, left) = with(tokens.take_one(), left)?;
        let (right, left) = with(self.expr(tokens, level(op) + 1), left)?;
        Ok(binary(self.alloc, place, op, left, right)?)
    }

    #[tactic(auto, unfolding(crate::specs::Expressions::operate))]
    fn operate(&self, left: Expr, tokens: &mut Cursor<'_>) -> Result<Expr, Stop>
        requires { Nests self.now.depth (F.pre self.now.expr) (F.post self.now.expr) }
        ensures { Reads (spec.operate (spec.expr self.now.depth) left tokens.old.left) result tokens.old tokens.new }
    {
        match next_follow(tokens) {
            Follow::Index => self.indexed(left, tokens),
            Follow::Member => self.member(left, tokens),
            Follow::Postfix(op) => self.stepped(op, left, tokens),
            Follow::Binary(op) => self.joined(op, left, tokens),
            Follow::End => {
                drop(left);
                Err(Stop::Bad)
            }
        }
    }

    /// Operators that bind at least so tightly, with their operands.
    fn climb(&self, least: u8, first: Expr, tokens: &mut Cursor<'_>) -> Result<Expr, Stop>
        requires nested { Nests self.now.depth (F.pre self.now.expr) (F.post self.now.expr) }
        requires some { 0 < least }
        ensures { Reads (spec.climb (spec.expr self.now.depth) least (length tokens.old.left) first tokens.old.left) result tokens.old tokens.new }
    {
        let mut left = first;
        for _turn in 0..usize::MAX {
            if binds(next_follow(tokens)) < least {
                return Ok(left);
            }
            left = self.operate(left, tokens)?;
        }
        Err(Stop::Memory)
    }

    /// The rest of a condition, from its `?` on.
    fn chosen(&self, least: u8, left: Expr, tokens: &mut Cursor<'_>) -> Result<Expr, Stop>
        requires { Nests self.now.depth (F.pre self.now.expr) (F.post self.now.expr) }
        ensures { Reads (spec.tailed_as (spec.expr self.now.depth) least left tail.Question tokens.old.left) result tokens.old tokens.new }
    {
        if least > 2 {
            return Ok(left);
        }
        let (place, left) = with(tokens.take_one(), left)?;
        let (chosen, left) = with(self.expr(tokens, 0), left)?;
        let (_, (left, chosen)) = with(tokens.expect(Punct::Colon), (left, chosen))?;
        let (other, (left, chosen)) = with(self.expr(tokens, 1), (left, chosen))?;
        Ok(conditional(self.alloc, place, left, chosen, other)?)
    }

    /// The rest of an assignment, from its operator on.
    fn assigned(
        &self,
        least: u8,
        op: AssignOp,
        left: Expr,
        tokens: &mut Cursor<'_>,
    ) -> Result<Expr, Stop>
        requires { Nests self.now.depth (F.pre self.now.expr) (F.post self.now.expr) }
        ensures { Reads (spec.tailed_as (spec.expr self.now.depth) least left (tail.Assign op) tokens.old.left) result tokens.old tokens.new }
    {
        if least > 1 || !is_tight(&left) {
            return Ok(left);
        }
        let (place, left) = with(tokens.take_one(), left)?;
        let (value, left) = with(self.expr(tokens, 1), left)?;
        Ok(assign(self.alloc, place, op, left, value)?)
    }

    /// A condition or an assignment, where such may stand.
    #[tactic(auto, unfolding(crate::specs::Expressions::tailed))]
    fn tailed(&self, least: u8, left: Expr, tokens: &mut Cursor<'_>) -> Result<Expr, Stop>
        requires { Nests self.now.depth (F.pre self.now.expr) (F.post self.now.expr) }
        ensures { Reads (spec.tailed (spec.expr self.now.depth) least left tokens.old.left) result tokens.old tokens.new }
    {
        match next_tail(tokens) {
            Tail::Question => self.chosen(least, left, tokens),
            Tail::Assign(op) => self.assigned(least, op, left, tokens),
            Tail::End => Ok(left),
        }
    }

    /// What stands behind commas.
    fn further(&self, tokens: &mut Cursor<'_>) -> Result<List<(Place, Expr)>, Stop>
        requires { Nests self.now.depth (F.pre self.now.expr) (F.post self.now.expr) }
        ensures { Reads (spec.further (spec.expr self.now.depth) (length tokens.old.left) [] tokens.old.left) result tokens.old tokens.new }
    {
        let mut found = List::new(self.alloc);
        for _turn in 0..usize::MAX {
            if !tokens.sees(Punct::Comma) {
                return Ok(found);
            }
            let place = tokens.take_one()?;
            let item = self.expr(tokens, 1)?;
            found.push((place, item))?;
        }
        Err(Stop::Memory)
    }

    /// The expression that begins with this operand.
    #[tactic(auto, unfolding(crate::specs::Expressions::completed, crate::specs::Expressions::sequenced))]
    pub fn completed(&self, least: u8, first: Expr, tokens: &mut Cursor<'_>) -> Result<Expr, Stop>
        requires { Nests self.now.depth (F.pre self.now.expr) (F.post self.now.expr) }
        ensures { Reads (spec.completed (spec.expr self.now.depth) least first tokens.old.left) result tokens.old tokens.new }
    {
        let tree = self.climb(least.max(3), first, tokens)?;
        let tree = self.tailed(least, tree, tokens)?;
        if least > 0 {
            return Ok(tree);
        }
        let (more, tree) = with(self.further(tokens), tree)?;
        Ok(sequence(self.alloc, tree, more)?)
    }

    /// An expression, its first operand first.
    fn whole(&self, least: u8, tokens: &mut Cursor<'_>) -> Result<Expr, Stop>
        requires { Nests self.now.depth (F.pre self.now.expr) (F.post self.now.expr) }
        ensures { Reads (spec.whole (spec.expr self.now.depth) least tokens.old.left) result tokens.old tokens.new }
    {
        let first = self.operand(tokens)?;
        self.completed(least, first, tokens)
    }
}

/// A call whose arguments are the word `void`, from that word on.
fn call_void(callee: Boxed<TypeSpec>, tokens: &mut Cursor<'_>) -> Result<Expr, Stop>
    ensures { Reads (spec.call_void callee tokens.old.left) result tokens.old tokens.new }
{
    let (_, callee) = with(tokens.take_one(), callee)?;
    let (_, callee) = with(tokens.take_one(), callee)?;
    Ok(Expr::CallVoid(callee))
}

/// An expression of a level that nests no deeper than `depth`.
pub fn expr(alloc: Global, tokens: &mut Cursor<'_>, depth: usize, least: u8) -> Result<Expr, Stop>
    ensures { Reads (spec.expr depth least tokens.old.left) result tokens.old tokens.new }
{
    if depth == 0 {
        return Err(Stop::Bad);
    }
    Grammar {
        alloc,
        depth: depth - 1,
        expr,
    }
    .whole(least, tokens)
}
