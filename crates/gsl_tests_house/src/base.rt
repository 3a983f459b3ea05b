ghost use Rattle.std.specs.Prelude.{◌≡◌, ◌∷◌, [], IfOk};

use gsl_base::{Boxed, Code, List, Memory, Text};
use std::alloc::Global;
use std::test::Fail;

/// 7, 8 and 9.
fn three(alloc: Global) -> Result<List<u32>, Memory>
    ensures { IfOk result (λ l. l ≡ 7 ∷ 8 ∷ 9 ∷ []) }
{
    let mut list = List::new(alloc);
    list.push(7)?;
    list.extend_from_slice(&[8, 9])?;
    Ok(list)
}

#[test]
fn lists_grow(rt: HostRuntime) -> Result<(), Fail> {
    let none: List<u32> = List::new(rt.alloc());
    assert!(rt; none.is_empty());
    let list = three(rt.alloc())?;
    assert_eq!(rt; list.as_slice(), [7, 8, 9].as_slice());
    assert_eq!(rt; (list.len(), list[2]), (3, 9));
    Ok(())
}

#[test]
fn lists_shrink(rt: HostRuntime) -> Result<(), Fail> {
    let mut list = three(rt.alloc())?;
    let last = list.pop();
    list.truncate(1);
    assert_eq!(rt; (last, list.as_slice()), (Some(9), [7].as_slice()));
    Ok(())
}

#[test]
fn lists_are_vectors(rt: HostRuntime) -> Result<(), Fail> {
    let list = List::from_slice(rt.alloc(), &[1u8, 2])?;
    let again = List::from_vec(list.into_vec());
    assert_eq!(rt; again.as_slice(), [1u8, 2].as_slice());
    Ok(())
}

#[test]
fn boxes_hold_their_value(rt: HostRuntime) -> Result<(), Fail> {
    let boxed = Boxed::new(rt.alloc(), 5u32)?;
    let seen = *boxed.get();
    assert_eq!(rt; (seen, boxed.into_inner()), (5, 5));
    Ok(())
}

/// `glé`, by a character behind a text.
fn put_together(alloc: Global) -> Result<Text, Memory> {
    let mut text = Text::from_str(alloc, "gl")?;
    text.push('é')?;
    Ok(text)
}

/// Whether a text equals another, and whether it differs from it.
fn compared(alloc: Global, text: &Text, other: &str) -> Result<(bool, bool), Memory> {
    let other = Text::from_str(alloc, other)?;
    Ok((*text == other, *text != other))
}

#[test]
fn text_is_utf8(rt: HostRuntime) -> Result<(), Fail> {
    let alloc = rt.alloc();
    let text = put_together(alloc)?;
    assert_eq!(rt; text.as_str(), "glé");
    assert_eq!(rt;
        [compared(alloc, &text, "glé"), compared(alloc, &text, "gle")],
        [Ok((true, false)), Ok((false, true))]
    );
    Ok(())
}

#[test]
fn a_new_text_is_empty(rt: HostRuntime) {
    assert_eq!(rt; Text::new(rt.alloc()).as_str(), "");
}

#[test]
fn codes_have_their_numbers(rt: HostRuntime) {
    assert_eq!(rt;
        [
            Code::E0001.number(),
            Code::E0215.number(),
            Code::E0514.number(),
            Code::E0908.number()
        ],
        [1, 215, 514, 908]
    );
}
