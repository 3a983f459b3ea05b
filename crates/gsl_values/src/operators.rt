ghost use Rattle.std.specs.Prelude.{◌≡◌, ◌≢◌, ◌<◌, ◌^◌, false, pos, int_lt};
ghost use Rattle.std.specs.Int.{w32, int_div_euclid, NotMinOverMinusOne};
ghost use Rattle.std.specs.Int.RustNames.{int_div};
ghost use Rattle.gsl_values.specs.Word.{value, word_of};
ghost use Rattle.gsl_values.specs.Operators.{unary_word, is_free, is_free_quotient, binary_word, binary_answer, modulus};

use crate::choices::Choices;
use crate::op::{BinaryOp, UnaryOp};

/// What an operator gives on a word; `Not` takes and gives a `bool` (GLSL 4.50, 5.9).
#[tactic(auto, unfolding(crate::specs::Operators::unary_word))]
pub fn unary(op: UnaryOp, a: u32) -> u32
    ensures { result ≡ unary_word op a }
{
    match op {
        UnaryOp::Negate => 0u32.wrapping_sub(a),
        UnaryOp::Flip => !a,
        UnaryOp::Not => (a == 0) as u32,
    }
}

/// What an operator gives on two words, taken as `int` where `signed` is true and as `uint` or `bool` where
/// not; for a shift that is said of `a`, and `b` is taken as a `uint`. A relation gives a `bool`. Where the
/// language leaves the result open, it is drawn from the choices; otherwise they stay as they are (GLSL
/// 4.50, 5.9).
#[tactic(auto, unfolding(crate::specs::Operators::binary_answer))]
pub fn binary(op: BinaryOp, signed: bool, a: u32, b: u32, choices: &mut Choices) -> u32
    ensures word { result ≡ (binary_answer op signed a b choices.old).0 }
    ensures left { choices.new ≡ (binary_answer op signed a b choices.old).1 }
{
    if is_free(op, signed, a, b) {
        choices.next()
    } else {
        binary_word(op, signed, a, b)
    }
}

/// Whether the language leaves the result open.
fn is_free(op: BinaryOp, signed: bool, a: u32, b: u32) -> bool
    ensures { result ≡ is_free op signed a b }
{
    match op {
        BinaryOp::Div | BinaryOp::Mod => {
            b == 0 || signed && a == 0x8000_0000 && b == 0xffff_ffff
        }
        BinaryOp::Shl | BinaryOp::Shr => b >= 32,
        _ => false,
    }
}

/// The result where it is not open.
pub fn binary_word(op: BinaryOp, signed: bool, a: u32, b: u32) -> u32
    requires { is_free op signed a b ≡ false }
    ensures { result ≡ binary_word op signed a b }
{
    match op {
        BinaryOp::Add => a.wrapping_add(b),
        BinaryOp::Sub => a.wrapping_sub(b),
        BinaryOp::Mul => a.wrapping_mul(b),
        BinaryOp::Div => quotient(signed, a, b),
        BinaryOp::Mod => rest(signed, a, b),
        BinaryOp::Shl => a << b,
        BinaryOp::Shr => shifted_right(signed, a, b),
        BinaryOp::And => a & b,
        BinaryOp::Or => a | b,
        BinaryOp::Xor => a ^ b,
        BinaryOp::Less => is_less(signed, a, b) as u32,
        BinaryOp::LessEq => !is_less(signed, b, a) as u32,
        BinaryOp::Greater => is_less(signed, b, a) as u32,
        BinaryOp::GreaterEq => !is_less(signed, a, b) as u32,
        BinaryOp::Equal => (a == b) as u32,
        BinaryOp::Unequal => (a != b) as u32,
    }
}

/// `a / b`, which is not open.
fn quotient(signed: bool, a: u32, b: u32) -> u32
    requires { is_free_quotient signed a b ≡ false }
    ensures { result ≡ word_of (int_div (value signed a) (value signed b)) }
{
    if signed {
        (a.cast_signed() / b.cast_signed()).cast_unsigned()
    } else {
        a / b
    }
}

/// `a % b`, which is not open; it has the sign of `b`.
fn rest(signed: bool, a: u32, b: u32) -> u32
    requires { is_free_quotient signed a b ≡ false }
    ensures { result ≡ word_of (modulus (value signed a) (value signed b)) }
{
    if signed {
        signed_rest(a.cast_signed(), b.cast_signed()).cast_unsigned()
    } else {
        a % b
    }
}

/// The rest of a quotient of whole numbers, with the sign of the divisor.
fn signed_rest(x: i32, y: i32) -> i32
    requires nonzero { y ≢ pos 0 }
    requires no_overflow { NotMinOverMinusOne w32 x y }
    ensures { result ≡ modulus x y }
{
    let rest = x.rem_euclid(y);
    if y < 0 && rest != 0 { rest + y } else { rest }
}

/// `a >> b`, which keeps the sign of an `int`.
fn shifted_right(signed: bool, a: u32, b: u32) -> u32
    requires { b < 32 }
    ensures { result ≡ word_of (int_div_euclid (value signed a) (pos (2 ^ b))) }
{
    if signed {
        (a.cast_signed() >> b).cast_unsigned()
    } else {
        a >> b
    }
}

/// `a < b`
pub fn is_less(signed: bool, a: u32, b: u32) -> bool
    ensures { result ≡ int_lt (value signed a) (value signed b) }
{
    if signed {
        a.cast_signed() < b.cast_signed()
    } else {
        a < b
    }
}
