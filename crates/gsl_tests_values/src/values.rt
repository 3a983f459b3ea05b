use gsl_base::List;
use gsl_values::{
    BinaryOp, Choices, Lanes, Value, clamp_within, field_put_back, lanes, lanes_in_order,
    quotient_and_rest, reversed_twice, words_and_numbers,
};
use std::test::Fail;

#[test]
fn choices_are_drawn_in_order(rt: HostRuntime) -> Result<(), Fail> {
    let mut choices = Choices::new(List::from_slice(rt.alloc(), &[5, 8])?);
    let left = choices.left();
    let first = [choices.next(), choices.next(), choices.left()];
    let behind = [choices.next(), choices.left()];
    assert_eq!(rt; (left, first, behind), (2, [5, 8, 0], [0, 0]));
    Ok(())
}

fn quotients(choices: &mut Choices) -> Lanes {
    let a = Lanes {
        words: [7, 9, 11, 0],
        count: 3,
    };
    let b = Lanes {
        words: [0, 2, 0, 0],
        count: 3,
    };
    lanes(BinaryOp::Div, true, &a, &b, choices)
}

// What stands past the last component is not looked at.
fn shifted(choices: &mut Choices) -> Lanes {
    let a = Lanes {
        words: [7, 3, 3, 3],
        count: 1,
    };
    let by = Lanes {
        words: [1, 40, 40, 40],
        count: 1,
    };
    lanes(BinaryOp::Shl, false, &a, &by, choices)
}

#[test]
fn components_draw_from_the_lowest_on(rt: HostRuntime) -> Result<(), Fail> {
    let mut choices = Choices::new(List::from_slice(rt.alloc(), &[5, 8])?);
    let quotients = quotients(&mut choices);
    let left = choices.left();
    let shifted = shifted(&mut choices);
    assert_eq!(rt;
        (quotients.words, quotients.count, left),
        ([5, 4, 8, 0], 3, 0)
    );
    assert_eq!(rt; (shifted.words, shifted.count), ([14, 0, 0, 0], 1));
    Ok(())
}

#[test]
fn values_hold_values(rt: HostRuntime) -> Result<(), Fail> {
    let mut many = List::new(rt.alloc());
    many.push(Value::Word(3))?;
    many.push(Value::Many(List::new(rt.alloc())))?;
    match Value::Many(many) {
        Value::Word(_) => assert!(rt; false),
        Value::Many(values) => assert_eq!(rt; values.len(), 2),
    }
    Ok(())
}

#[test]
fn laws_can_be_called(rt: HostRuntime) {
    words_and_numbers();
    quotient_and_rest();
    lanes_in_order();
    clamp_within();
    reversed_twice();
    field_put_back();
    assert!(rt; true);
}
