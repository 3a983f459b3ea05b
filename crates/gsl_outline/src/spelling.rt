//! Operators and types as they are spelled.

use gsl_base::{Key, Punct};
use gsl_syntax::{AssignOp, Basic, BinaryOp, PostfixOp, UnaryOp};

pub fn binary(op: BinaryOp) -> &'static str {
    match op {
        BinaryOp::LogicalOr => "||",
        BinaryOp::LogicalXor => "^^",
        BinaryOp::LogicalAnd => "&&",
        BinaryOp::BitOr => "|",
        BinaryOp::BitXor => "^",
        BinaryOp::BitAnd => "&",
        BinaryOp::Equal => "==",
        BinaryOp::NotEqual => "!=",
        BinaryOp::Less => "<",
        BinaryOp::Greater => ">",
        BinaryOp::LessEqual => "<=",
        BinaryOp::GreaterEqual => ">=",
        BinaryOp::ShiftLeft => "<<",
        BinaryOp::ShiftRight => ">>",
        BinaryOp::Add => "+",
        BinaryOp::Sub => "-",
        BinaryOp::Mul => "*",
        BinaryOp::Div => "/",
        BinaryOp::Mod => "%",
    }
}

pub fn assign(op: AssignOp) -> &'static str {
    match op {
        AssignOp::Set => "=",
        AssignOp::Add => "+=",
        AssignOp::Sub => "-=",
        AssignOp::Mul => "*=",
        AssignOp::Div => "/=",
        AssignOp::Mod => "%=",
        AssignOp::ShiftLeft => "<<=",
        AssignOp::ShiftRight => ">>=",
        AssignOp::BitAnd => "&=",
        AssignOp::BitXor => "^=",
        AssignOp::BitOr => "|=",
    }
}

pub fn unary(op: UnaryOp) -> &'static str {
    match op {
        UnaryOp::Increment => "++",
        UnaryOp::Decrement => "--",
        UnaryOp::Plus => "+",
        UnaryOp::Minus => "-",
        UnaryOp::Complement => "~",
        UnaryOp::Not => "!",
    }
}

pub fn postfix(op: PostfixOp) -> &'static str {
    match op {
        PostfixOp::Increment => "behind++",
        PostfixOp::Decrement => "behind--",
    }
}

pub fn basic(ty: Basic) -> &'static str {
    match ty {
        Basic::Void => "void",
        Basic::Bool => "bool",
        Basic::Int => "int",
        Basic::Uint => "uint",
        Basic::Bvec2 => "bvec2",
        Basic::Bvec3 => "bvec3",
        Basic::Bvec4 => "bvec4",
        Basic::Ivec2 => "ivec2",
        Basic::Ivec3 => "ivec3",
        Basic::Ivec4 => "ivec4",
        Basic::Uvec2 => "uvec2",
        Basic::Uvec3 => "uvec3",
        Basic::Uvec4 => "uvec4",
    }
}

pub fn key_word(key: Key) -> &'static str {
    match key {
        Key::Const => "const",
        Key::Uniform => "uniform",
        Key::Buffer => "buffer",
        Key::In => "in",
        Key::Out => "out",
        Key::Inout => "inout",
        Key::Layout => "layout",
        Key::Flat => "flat",
        Key::Coherent => "coherent",
        Key::Volatile => "volatile",
        Key::Restrict => "restrict",
        Key::Readonly => "readonly",
        Key::Writeonly => "writeonly",
        Key::Struct => "struct",
        Key::Void => "void",
        Key::Bool => "bool",
        Key::Int => "int",
        Key::Uint => "uint",
        Key::Bvec2 => "bvec2",
        Key::Bvec3 => "bvec3",
        Key::Bvec4 => "bvec4",
        Key::Ivec2 => "ivec2",
        Key::Ivec3 => "ivec3",
        Key::Ivec4 => "ivec4",
        Key::Uvec2 => "uvec2",
        Key::Uvec3 => "uvec3",
        Key::Uvec4 => "uvec4",
        Key::If => "if",
        Key::Else => "else",
        Key::Switch => "switch",
        Key::Case => "case",
        Key::Default => "default",
        Key::While => "while",
        Key::Do => "do",
        Key::For => "for",
        Key::Break => "break",
        Key::Continue => "continue",
        Key::Return => "return",
        Key::Discard => "discard",
        Key::True => "true",
        Key::False => "false",
    }
}

pub fn punct(mark: Punct) -> &'static str {
    match mark {
        Punct::LeftParen => "(",
        Punct::RightParen => ")",
        Punct::LeftBracket => "[",
        Punct::RightBracket => "]",
        Punct::LeftBrace => "{",
        Punct::RightBrace => "}",
        Punct::Dot => ".",
        Punct::Comma => ",",
        Punct::Semicolon => ";",
        Punct::Colon => ":",
        Punct::Question => "?",
        Punct::IncOp => "++",
        Punct::DecOp => "--",
        Punct::Plus => "+",
        Punct::Dash => "-",
        Punct::Tilde => "~",
        Punct::Bang => "!",
        Punct::Star => "*",
        Punct::Slash => "/",
        Punct::Percent => "%",
        Punct::LeftOp => "<<",
        Punct::RightOp => ">>",
        Punct::LeftAngle => "<",
        Punct::RightAngle => ">",
        Punct::LeOp => "<=",
        Punct::GeOp => ">=",
        Punct::EqOp => "==",
        Punct::NeOp => "!=",
        Punct::Ampersand => "&",
        Punct::Caret => "^",
        Punct::VerticalBar => "|",
        Punct::AndOp => "&&",
        Punct::XorOp => "^^",
        Punct::OrOp => "||",
        Punct::Equal => "=",
        Punct::AddAssign => "+=",
        Punct::SubAssign => "-=",
        Punct::MulAssign => "*=",
        Punct::DivAssign => "/=",
        Punct::ModAssign => "%=",
        Punct::LeftAssign => "<<=",
        Punct::RightAssign => ">>=",
        Punct::AndAssign => "&=",
        Punct::XorAssign => "^=",
        Punct::OrAssign => "|=",
        Punct::Hash => "#",
    }
}
