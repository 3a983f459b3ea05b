//! The operators of conditions, by their punctuators.

ghost use Rattle.std.specs.Prelude.{◌≡◌};
ghost use Rattle.gsl_conditions.specs.Operators as spec;

use gsl_base::Punct;

/// What stands before its operand.
#[derive(Clone, Copy, Debug, PartialEq, Eq)]
pub enum Unary {
    Keep,
    Negate,
    Flip,
    Not,
}

/// What stands between its operands.
#[derive(Clone, Copy, Debug, PartialEq, Eq)]
pub enum Binary {
    Mul,
    Div,
    Rem,
    Add,
    Sub,
    Shl,
    Shr,
    Less,
    Greater,
    LessEq,
    GreaterEq,
    Equal,
    Unequal,
    And,
    Xor,
    Or,
    Both,
    Either,
}

/// What a punctuator is where an operand is due.
#[derive(Clone, Copy, Debug, PartialEq, Eq)]
pub(crate) enum Prefix {
    Opens,
    Sign(Unary),
    Wrong,
}

/// What a punctuator is behind an operand.
#[derive(Clone, Copy, Debug, PartialEq, Eq)]
pub(crate) enum Infix {
    Closes,
    Joins(Binary),
    Wrong,
}

pub(crate) fn prefix_of(punct: Punct) -> Prefix
    ensures { result ≡ spec.prefix_of punct }
{
    match punct {
        Punct::LeftParen => Prefix::Opens,
        Punct::Plus => Prefix::Sign(Unary::Keep),
        Punct::Dash => Prefix::Sign(Unary::Negate),
        Punct::Tilde => Prefix::Sign(Unary::Flip),
        Punct::Bang => Prefix::Sign(Unary::Not),
        _ => Prefix::Wrong,
    }
}

pub(crate) fn infix_of(punct: Punct) -> Infix
    ensures { result ≡ spec.infix_of punct }
{
    match punct {
        Punct::RightParen => Infix::Closes,
        Punct::Star => Infix::Joins(Binary::Mul),
        Punct::Slash => Infix::Joins(Binary::Div),
        Punct::Percent => Infix::Joins(Binary::Rem),
        Punct::Plus => Infix::Joins(Binary::Add),
        Punct::Dash => Infix::Joins(Binary::Sub),
        Punct::LeftOp => Infix::Joins(Binary::Shl),
        Punct::RightOp => Infix::Joins(Binary::Shr),
        Punct::LeftAngle => Infix::Joins(Binary::Less),
        Punct::RightAngle => Infix::Joins(Binary::Greater),
        Punct::LeOp => Infix::Joins(Binary::LessEq),
        Punct::GeOp => Infix::Joins(Binary::GreaterEq),
        Punct::EqOp => Infix::Joins(Binary::Equal),
        Punct::NeOp => Infix::Joins(Binary::Unequal),
        Punct::Ampersand => Infix::Joins(Binary::And),
        Punct::Caret => Infix::Joins(Binary::Xor),
        Punct::VerticalBar => Infix::Joins(Binary::Or),
        Punct::AndOp => Infix::Joins(Binary::Both),
        Punct::OrOp => Infix::Joins(Binary::Either),
        _ => Infix::Wrong,
    }
}

/// How tightly an operator binds: the greater, the tighter.
pub(crate) fn level(op: Binary) -> u32
    ensures { result ≡ spec.level op }
{
    match op {
        Binary::Mul | Binary::Div | Binary::Rem => 10,
        Binary::Add | Binary::Sub => 9,
        Binary::Shl | Binary::Shr => 8,
        Binary::Less | Binary::Greater | Binary::LessEq | Binary::GreaterEq => 7,
        Binary::Equal | Binary::Unequal => 6,
        Binary::And => 5,
        Binary::Xor => 4,
        Binary::Or => 3,
        Binary::Both => 2,
        Binary::Either => 1,
    }
}

/// Whether the punctuator counts for the limit on nesting.
pub(crate) fn nests(punct: Punct) -> bool
    ensures { result ≡ spec.nests punct }
{
    !matches!(prefix_of(punct), Prefix::Wrong)
}
