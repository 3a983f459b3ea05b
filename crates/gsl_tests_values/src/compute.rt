use gsl_base::{List, Memory};
use gsl_compute::{
    binary_value, build_value, builtin_value, copy_value, decides, has_fixed_length, index_value,
    is_signed, length_of, logic_word, member_value, same_value, step_value, swizzle_value,
    unary_value, word_in,
};
use gsl_tree::{LogicOp, StepOp};
use gsl_types::{Scalar, Ty};
use gsl_values::{BinaryOp, Builtin, Choices, Lanes, UnaryOp, Value, Values};
use std::alloc::Global;
use std::test::Fail;

fn pair(alloc: Global, a: u32, b: u32) -> Result<Value, Memory> {
    let mut parts = List::new(alloc);
    parts.push(Value::Word(a))?;
    parts.push(Value::Word(b))?;
    Ok(Value::Many(parts))
}

/// The two components of a value that has two.
fn two(value: &Value) -> Option<[u32; 2]> {
    match value {
        Value::Many(parts) => both(parts),
        Value::Word(_) => None,
    }
}

fn both(parts: &Values) -> Option<[u32; 2]> {
    match parts.as_slice() {
        [Value::Word(a), Value::Word(b)] => Some([*a, *b]),
        _ => None,
    }
}

type Two = Result<Option<[u32; 2]>, Memory>;

fn quotient(alloc: Global, a: &Value, choices: &mut Choices) -> Two {
    let by = pair(alloc, 0, 2)?;
    let given = binary_value(alloc, BinaryOp::Div, true, a, &by, choices)?;
    Ok(two(&given))
}

fn quotient_of(alloc: Global, a: u32, b: u32, choices: &mut Choices) -> Two {
    let a = pair(alloc, a, b)?;
    quotient(alloc, &a, choices)
}

#[test]
fn components_draw_in_order(rt: HostRuntime) -> Result<(), Fail> {
    let alloc = rt.alloc();
    let mut choices = Choices::new(List::from_slice(alloc, &[5])?);
    let given = quotient_of(alloc, 7, 9, &mut choices);
    assert_eq!(rt; (given, choices.left()), (Ok(Some([5, 4])), 0));
    Ok(())
}

fn negated(alloc: Global, v: &Value) -> Two {
    let given = unary_value(alloc, UnaryOp::Negate, v)?;
    Ok(two(&given))
}

fn stepped(alloc: Global, v: &Value) -> Two {
    let given = step_value(alloc, StepOp::PostUp, v)?;
    Ok(two(&given))
}

fn copied(alloc: Global, v: &Value) -> Two {
    let given = copy_value(alloc, v)?;
    Ok(two(&given))
}

fn turned(alloc: Global, v: &Value) -> Two {
    let turned = Lanes {
        words: [1, 0, 0, 0],
        count: 2,
    };
    let given = swizzle_value(alloc, v, &turned)?;
    Ok(two(&given))
}

/// What is computed of the value of 1 and 2.
fn computed(alloc: Global) -> Result<[Two; 4], Memory> {
    let v = pair(alloc, 1, 2)?;
    Ok([
        negated(alloc, &v),
        stepped(alloc, &v),
        copied(alloc, &v),
        turned(alloc, &v),
    ])
}

#[test]
fn values_are_computed(rt: HostRuntime) -> Result<(), Fail> {
    assert_eq!(rt;
        computed(rt.alloc())?,
        [
            Ok(Some([0xffff_ffff, 0xffff_fffe])),
            Ok(Some([2, 3])),
            Ok(Some([1, 2])),
            Ok(Some([2, 1]))
        ]
    );
    Ok(())
}

/// The member of the number 1.
fn second(alloc: Global, v: &Value) -> Result<u32, Memory> {
    let member = member_value(alloc, v, 1)?;
    Ok(word_in(&member))
}

/// Whether there is an element at an index.
fn has(alloc: Global, v: &Value, index: u32) -> Result<bool, Memory> {
    let found = index_value(alloc, v, index)?;
    Ok(found.is_some())
}

fn parts(alloc: Global) -> Result<(Result<u32, Memory>, Result<bool, Memory>), Memory> {
    let v = pair(alloc, 1, 2)?;
    Ok((second(alloc, &v), has(alloc, &v, 2)))
}

#[test]
fn values_have_parts(rt: HostRuntime) -> Result<(), Fail> {
    assert_eq!(rt; parts(rt.alloc())?, (Ok(2), Ok(false)));
    Ok(())
}

/// Whether two values of two components are the same.
fn alike(alloc: Global, a: &Value, b: [u32; 2]) -> Result<bool, Memory> {
    let b = pair(alloc, b[0], b[1])?;
    Ok(same_value(a, &b))
}

fn comparisons(alloc: Global) -> Result<[Result<bool, Memory>; 2], Memory> {
    let a = pair(alloc, 1, 2)?;
    Ok([alike(alloc, &a, [1, 2]), alike(alloc, &a, [1, 3])])
}

#[test]
fn values_are_compared(rt: HostRuntime) -> Result<(), Fail> {
    assert_eq!(rt; comparisons(rt.alloc())?, [Ok(true), Ok(false)]);
    Ok(())
}

fn arguments(alloc: Global, a: Value, b: Value) -> Result<Values, Memory> {
    let mut args = List::new(alloc);
    args.push(a)?;
    args.push(b)?;
    Ok(args)
}

/// The vector of the words 0 and 256.
fn built(alloc: Global, ty: &Ty) -> Two {
    let args = arguments(alloc, Value::Word(0), Value::Word(256))?;
    let given = build_value(alloc, ty, args)?;
    Ok(two(&given))
}

#[test]
fn values_are_built(rt: HostRuntime) {
    let ty = Ty::Vector(Scalar::Bool, 2);
    assert_eq!(rt; built(rt.alloc(), &ty), Ok(Some([0, 1])));
    assert_eq!(rt;
        (length_of(&ty), has_fixed_length(&ty), is_signed(&ty)),
        (2, true, false)
    );
}

fn lesser_of(alloc: Global, args: &Values) -> Two {
    let mut choices = Choices::new(List::new(alloc));
    let given = builtin_value(alloc, Builtin::Min, true, args, &mut choices)?;
    Ok(two(&given))
}

fn lesser(alloc: Global, a: u32, b: u32, by: u32) -> Two {
    let args = arguments(alloc, pair(alloc, a, b)?, Value::Word(by))?;
    lesser_of(alloc, &args)
}

#[test]
fn a_scalar_serves_each_component(rt: HostRuntime) {
    assert_eq!(rt; lesser(rt.alloc(), 3, 8, 5), Ok(Some([3, 5])));
    assert_eq!(rt;
        (decides(LogicOp::Or, 1), logic_word(LogicOp::Xor, 1, 1)),
        (true, 0)
    );
}
