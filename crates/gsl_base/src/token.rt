//! Tokens: what a source text is made of (GLSL 4.50, 3.2 to 3.7).

use crate::fault::Place;
use crate::list::List;
use crate::text::Text;

/// A piece of a source text, before the preprocessor has looked at it.
#[derive(Debug, PartialEq, Eq, Drop)]
pub struct Raw {
    /// Where its first byte stands, by physical lines.
    pub place: Place,
    pub kind: RawKind,
    /// Whether it is the first piece of its line, joined lines taken as one.
    pub starts_line: bool,
    /// Whether white space, a comment or a line end stands directly before it.
    pub spaced: bool,
}

/// What a raw token is, with its spelling.
#[derive(Debug, PartialEq, Eq, Drop)]
pub enum RawKind {
    /// A letter or `_`, and the letters, digits and `_` that follow.
    Word(Text),
    /// What begins as a number does, read as far as a preprocessing number goes.
    Number(Text),
    Punct(Punct),
    /// A byte that begins no other token.
    Stray(u8),
}

/// The raw tokens of a source file in their order.
pub type Raws = List<Raw>;

/// A token that the grammar reads.
#[derive(Debug, PartialEq, Eq, Drop)]
pub struct Token {
    /// Where its first byte stands; that of the outermost macro use where a macro put it.
    pub place: Place,
    pub kind: Kind,
}

/// What a token is.
#[derive(Debug, PartialEq, Eq, Drop)]
pub enum Kind {
    Name(Text),
    Key(Key),
    /// A literal without suffix, as the word of its bits.
    Signed(u32),
    /// A literal with the suffix `u` or `U`.
    Unsigned(u32),
    Punct(Punct),
}

/// Tokens in their order.
pub type Tokens = List<Token>;

/// The punctuators, by the names of GLSL 4.50, chapter 9.
#[derive(Clone, Copy, Debug, PartialEq, Eq)]
pub enum Punct {
    /// `(`
    LeftParen,
    /// `)`
    RightParen,
    /// `[`
    LeftBracket,
    /// `]`
    RightBracket,
    /// `{`
    LeftBrace,
    /// `}`
    RightBrace,
    /// `.`
    Dot,
    /// `,`
    Comma,
    /// `;`
    Semicolon,
    /// `:`
    Colon,
    /// `?`
    Question,
    /// `++`
    IncOp,
    /// `--`
    DecOp,
    /// `+`
    Plus,
    /// `-`
    Dash,
    /// `~`
    Tilde,
    /// `!`
    Bang,
    /// `*`
    Star,
    /// `/`
    Slash,
    /// `%`
    Percent,
    /// `<<`
    LeftOp,
    /// `>>`
    RightOp,
    /// `<`
    LeftAngle,
    /// `>`
    RightAngle,
    /// `<=`
    LeOp,
    /// `>=`
    GeOp,
    /// `==`
    EqOp,
    /// `!=`
    NeOp,
    /// `&`
    Ampersand,
    /// `^`
    Caret,
    /// `|`
    VerticalBar,
    /// `&&`
    AndOp,
    /// `^^`
    XorOp,
    /// `||`
    OrOp,
    /// `=`
    Equal,
    /// `+=`
    AddAssign,
    /// `-=`
    SubAssign,
    /// `*=`
    MulAssign,
    /// `/=`
    DivAssign,
    /// `%=`
    ModAssign,
    /// `<<=`
    LeftAssign,
    /// `>>=`
    RightAssign,
    /// `&=`
    AndAssign,
    /// `^=`
    XorAssign,
    /// `|=`
    OrAssign,
    /// `#`
    Hash,
}

/// The keywords of the profile (GLSL 4.50, 3.6).
#[derive(Clone, Copy, Debug, PartialEq, Eq)]
pub enum Key {
    Const,
    Uniform,
    Buffer,
    In,
    Out,
    Inout,
    Layout,
    Flat,
    Coherent,
    Volatile,
    Restrict,
    Readonly,
    Writeonly,
    Struct,
    Void,
    Bool,
    Int,
    Uint,
    Bvec2,
    Bvec3,
    Bvec4,
    Ivec2,
    Ivec3,
    Ivec4,
    Uvec2,
    Uvec3,
    Uvec4,
    If,
    Else,
    Switch,
    Case,
    Default,
    While,
    Do,
    For,
    Break,
    Continue,
    Return,
    Discard,
    True,
    False,
}
