//! What the next token tells.

ghost use Rattle.std.specs.Prelude.{◌≡◌, ◌≤◌};
ghost use Rattle.gsl_syntax.specs.Operators as operators;
ghost use Rattle.gsl_expr.specs.Rules as spec;

use crate::reading::Cursor;
use gsl_base::{Key, Kind, Place, Punct, Text};
use gsl_syntax::{AssignOp, Basic, BinaryOp, Dims, PostfixOp, UnaryOp};

/// How an operand begins.
#[derive(Clone, Copy, Debug, PartialEq, Eq)]
pub enum Start {
    Name,
    Basic(Basic),
    Signed(u32),
    Unsigned(u32),
    Bool(bool),
    Paren,
    Unary(UnaryOp),
    Bad,
}

/// How an operand goes on.
#[derive(Clone, Copy, Debug, PartialEq, Eq)]
pub enum Follow {
    Index,
    Member,
    Postfix(PostfixOp),
    Binary(BinaryOp),
    End,
}

/// What stands behind operands and their operators.
#[derive(Clone, Copy, Debug, PartialEq, Eq)]
pub enum Tail {
    Question,
    Assign(AssignOp),
    End,
}

/// What the brackets behind a name, or behind a type, may still be.
#[derive(Clone, Copy, Debug, PartialEq, Eq)]
pub enum Mode {
    /// Brackets of a type, or indexes.
    Either,
    Type,
    Index,
}

/// What stands before brackets.
#[derive(Drop)]
pub enum Base {
    Basic(Basic),
    Named(Text),
}

/// A name or a type with its brackets.
#[derive(Drop)]
pub struct Head {
    pub place: Place,
    pub base: Base,
    pub dims: Dims,
    pub mode: Mode,
}

pub fn basic(key: Key) -> Option<Basic>
    ensures { result ≡ operators.basic_of key }
{
    match key {
        Key::Void => Some(Basic::Void),
        Key::Bool => Some(Basic::Bool),
        Key::Int => Some(Basic::Int),
        Key::Uint => Some(Basic::Uint),
        Key::Bvec2 => Some(Basic::Bvec2),
        Key::Bvec3 => Some(Basic::Bvec3),
        Key::Bvec4 => Some(Basic::Bvec4),
        Key::Ivec2 => Some(Basic::Ivec2),
        Key::Ivec3 => Some(Basic::Ivec3),
        Key::Ivec4 => Some(Basic::Ivec4),
        Key::Uvec2 => Some(Basic::Uvec2),
        Key::Uvec3 => Some(Basic::Uvec3),
        Key::Uvec4 => Some(Basic::Uvec4),
        _ => None,
    }
}

fn unary(punct: Punct) -> Option<UnaryOp>
    ensures { result ≡ operators.unary_of punct }
{
    match punct {
        Punct::IncOp => Some(UnaryOp::Increment),
        Punct::DecOp => Some(UnaryOp::Decrement),
        Punct::Plus => Some(UnaryOp::Plus),
        Punct::Dash => Some(UnaryOp::Minus),
        Punct::Tilde => Some(UnaryOp::Complement),
        Punct::Bang => Some(UnaryOp::Not),
        _ => None,
    }
}

fn binary(punct: Punct) -> Option<BinaryOp>
    ensures { result ≡ operators.binary_of punct }
{
    match punct {
        Punct::OrOp => Some(BinaryOp::LogicalOr),
        Punct::XorOp => Some(BinaryOp::LogicalXor),
        Punct::AndOp => Some(BinaryOp::LogicalAnd),
        Punct::VerticalBar => Some(BinaryOp::BitOr),
        Punct::Caret => Some(BinaryOp::BitXor),
        Punct::Ampersand => Some(BinaryOp::BitAnd),
        Punct::EqOp => Some(BinaryOp::Equal),
        Punct::NeOp => Some(BinaryOp::NotEqual),
        Punct::LeftAngle => Some(BinaryOp::Less),
        Punct::RightAngle => Some(BinaryOp::Greater),
        Punct::LeOp => Some(BinaryOp::LessEqual),
        Punct::GeOp => Some(BinaryOp::GreaterEqual),
        Punct::LeftOp => Some(BinaryOp::ShiftLeft),
        Punct::RightOp => Some(BinaryOp::ShiftRight),
        Punct::Plus => Some(BinaryOp::Add),
        Punct::Dash => Some(BinaryOp::Sub),
        Punct::Star => Some(BinaryOp::Mul),
        Punct::Slash => Some(BinaryOp::Div),
        Punct::Percent => Some(BinaryOp::Mod),
        _ => None,
    }
}

fn assign(punct: Punct) -> Option<AssignOp>
    ensures { result ≡ operators.assign_of punct }
{
    match punct {
        Punct::Equal => Some(AssignOp::Set),
        Punct::AddAssign => Some(AssignOp::Add),
        Punct::SubAssign => Some(AssignOp::Sub),
        Punct::MulAssign => Some(AssignOp::Mul),
        Punct::DivAssign => Some(AssignOp::Div),
        Punct::ModAssign => Some(AssignOp::Mod),
        Punct::LeftAssign => Some(AssignOp::ShiftLeft),
        Punct::RightAssign => Some(AssignOp::ShiftRight),
        Punct::AndAssign => Some(AssignOp::BitAnd),
        Punct::XorAssign => Some(AssignOp::BitXor),
        Punct::OrAssign => Some(AssignOp::BitOr),
        _ => None,
    }
}

/// How tightly an operator binds its operands.
pub fn level(op: BinaryOp) -> u8
    ensures value { result ≡ operators.level_of op }
    ensures small { result ≤ 13 }
{
    match op {
        BinaryOp::LogicalOr => 3,
        BinaryOp::LogicalXor => 4,
        BinaryOp::LogicalAnd => 5,
        BinaryOp::BitOr => 6,
        BinaryOp::BitXor => 7,
        BinaryOp::BitAnd => 8,
        BinaryOp::Equal | BinaryOp::NotEqual => 9,
        BinaryOp::Less | BinaryOp::Greater | BinaryOp::LessEqual | BinaryOp::GreaterEqual => 10,
        BinaryOp::ShiftLeft | BinaryOp::ShiftRight => 11,
        BinaryOp::Add | BinaryOp::Sub => 12,
        BinaryOp::Mul | BinaryOp::Div | BinaryOp::Mod => 13,
    }
}

fn start_punct(punct: Punct) -> Start
    ensures { result ≡ spec.start_punct punct }
{
    if punct == Punct::LeftParen {
        return Start::Paren;
    }
    match unary(punct) {
        Some(op) => Start::Unary(op),
        None => Start::Bad,
    }
}

fn start_key(key: Key) -> Start
    ensures { result ≡ spec.start_key key }
{
    if key == Key::True {
        return Start::Bool(true);
    }
    if key == Key::False {
        return Start::Bool(false);
    }
    match basic(key) {
        Some(basic) => Start::Basic(basic),
        None => Start::Bad,
    }
}

fn start_by(kind: &Kind) -> Start
    ensures { result ≡ spec.start_by kind.now }
{
    match kind {
        Kind::Name(_) => Start::Name,
        Kind::Key(key) => start_key(*key),
        Kind::Signed(word) => Start::Signed(*word),
        Kind::Unsigned(word) => Start::Unsigned(*word),
        Kind::Punct(punct) => start_punct(*punct),
    }
}

/// How an operand begins here.
#[tactic(auto, unfolding(crate::specs::Rules::start_at))]
pub fn next_start(tokens: &Cursor<'_>) -> Start
    ensures { result ≡ spec.start_at tokens.now.left }
{
    match tokens.next() {
        Some(token) => start_by(&token.kind),
        None => Start::Bad,
    }
}

fn follow_punct(punct: Punct) -> Follow
    ensures { result ≡ spec.follow_punct punct }
{
    match punct {
        Punct::LeftBracket => Follow::Index,
        Punct::Dot => Follow::Member,
        Punct::IncOp => Follow::Postfix(PostfixOp::Increment),
        Punct::DecOp => Follow::Postfix(PostfixOp::Decrement),
        _ => match binary(punct) {
            Some(op) => Follow::Binary(op),
            None => Follow::End,
        },
    }
}

fn follow_by(kind: &Kind) -> Follow
    ensures { result ≡ spec.follow_by kind.now }
{
    match kind {
        Kind::Punct(punct) => follow_punct(*punct),
        _ => Follow::End,
    }
}

/// How an operand goes on here.
#[tactic(auto, unfolding(crate::specs::Rules::follow_at))]
pub fn next_follow(tokens: &Cursor<'_>) -> Follow
    ensures { result ≡ spec.follow_at tokens.now.left }
{
    match tokens.next() {
        Some(token) => follow_by(&token.kind),
        None => Follow::End,
    }
}

/// How tightly what follows binds what stands before it.
pub fn binds(follow: Follow) -> u8
    ensures { result ≡ spec.binds follow }
{
    match follow {
        Follow::Index | Follow::Member | Follow::Postfix(_) => 15,
        Follow::Binary(op) => level(op),
        Follow::End => 0,
    }
}

fn tail_punct(punct: Punct) -> Tail
    ensures { result ≡ spec.tail_punct punct }
{
    if punct == Punct::Question {
        return Tail::Question;
    }
    match assign(punct) {
        Some(op) => Tail::Assign(op),
        None => Tail::End,
    }
}

fn tail_by(kind: &Kind) -> Tail
    ensures { result ≡ spec.tail_by kind.now }
{
    match kind {
        Kind::Punct(punct) => tail_punct(*punct),
        _ => Tail::End,
    }
}

/// What stands behind operands and their operators here.
#[tactic(auto, unfolding(crate::specs::Rules::tail_at))]
pub fn next_tail(tokens: &Cursor<'_>) -> Tail
    ensures { result ≡ spec.tail_at tokens.now.left }
{
    match tokens.next() {
        Some(token) => tail_by(&token.kind),
        None => Tail::End,
    }
}
