ghost use Rattle.std.specs.Prelude.{◌≡◌, false, if◌then◌else◌, ◌==◌};
ghost use Rattle.gsl_values.specs.Functions.{is_free_call, builtin_word, builtin_answer};

use crate::choices::Choices;
use crate::fields::{extracted, inserted, is_free_field};
use crate::function::Builtin;
use crate::op::{BinaryOp, UnaryOp};
use crate::operators::{binary_word, unary};
use crate::positions::{highest_bit, lowest_one};
use crate::range::{absolute, greater, lesser, sign_of};

/// What a built-in function gives for one component of each of its arguments, taken as `int` where `signed`
/// is true and as `uint` or `bool` where not; arguments that it does not have are 0. `bitfieldExtract` and
/// `bitfieldInsert` take their offset and their count of bits behind the other arguments, as `int`. Where the
/// language leaves the result open, it is drawn from the choices; otherwise they stay as they are. One
/// component of `any` and of `all` gives whether it is true (GLSL 4.50, 8.3, 8.7 and 8.8).
#[tactic(auto, unfolding(crate::specs::Functions::builtin_answer))]
pub fn builtin(which: Builtin, signed: bool, args: &[u32; 4], choices: &mut Choices) -> u32
    ensures word { result ≡ (builtin_answer which signed args.now choices.old).0 }
    ensures left { choices.new ≡ (builtin_answer which signed args.now choices.old).1 }
{
    let (a, b, c, d) = (args[0], args[1], args[2], args[3]);
    if is_free(which, b, c, d) {
        choices.next()
    } else {
        word(which, signed, a, b, c, d)
    }
}

/// Whether the language leaves the result open.
fn is_free(which: Builtin, b: u32, c: u32, d: u32) -> bool
    ensures { result ≡ is_free_call which b c d }
{
    match which {
        Builtin::BitfieldExtract => is_free_field(b, c),
        Builtin::BitfieldInsert => is_free_field(c, d),
        _ => false,
    }
}

/// The result where it is not open.
#[tactic(auto, unfolding(crate::specs::Operators::unary_word))]
fn word(which: Builtin, signed: bool, a: u32, b: u32, c: u32, d: u32) -> u32
    requires { is_free_call which b c d ≡ false }
    ensures { result ≡ builtin_word which signed a b c d }
{
    match which {
        Builtin::Abs => absolute(signed, a),
        Builtin::Sign => sign_of(signed, a),
        Builtin::Min => lesser(signed, a, b),
        Builtin::Max => greater(signed, a, b),
        Builtin::Clamp => lesser(signed, greater(signed, a, b), c),
        Builtin::Mix => { if c == 0 { a } else { b } }
        Builtin::LessThan => binary_word(BinaryOp::Less, signed, a, b),
        Builtin::LessThanEqual => binary_word(BinaryOp::LessEq, signed, a, b),
        Builtin::GreaterThan => binary_word(BinaryOp::Greater, signed, a, b),
        Builtin::GreaterThanEqual => binary_word(BinaryOp::GreaterEq, signed, a, b),
        Builtin::Equal => binary_word(BinaryOp::Equal, signed, a, b),
        Builtin::NotEqual => binary_word(BinaryOp::Unequal, signed, a, b),
        Builtin::Any | Builtin::All => (a != 0) as u32,
        Builtin::Not => unary(UnaryOp::Not, a),
        Builtin::BitCount => a.count_ones(),
        Builtin::FindLsb => lowest_one(a),
        Builtin::FindMsb => highest_bit(signed, a),
        Builtin::BitfieldReverse => a.reverse_bits(),
        Builtin::BitfieldExtract => extracted(signed, a, b, c),
        Builtin::BitfieldInsert => inserted(a, b, c, d),
    }
}
