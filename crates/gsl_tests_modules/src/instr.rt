use gsl_base::{List, Memory};
use gsl_instr::{
    Enumeration, Form, Instruction, Operands, Part, Parts, Rest, Slot, allows, allows_words,
    fits_text, form_of, has_text, is_text, next_of, op, push_string, read, read_as, rest, slots,
    text_at,
};
use std::alloc::Global;

#[test]
fn opcodes_and_their_forms(rt: HostRuntime) {
    assert!(rt; matches!(form_of(op::LOAD), Some(Form::Load)));
    assert!(rt; matches!(form_of(op::U_DIV), Some(Form::Arithmetic)));
    assert!(rt; form_of(0).is_none());
    assert!(rt; form_of(65535).is_none());
    assert!(rt; matches!(slots(Form::Branch), [Slot::Forward]));
    assert!(rt;
        matches!(
            slots(Form::Capability),
            [Slot::Named(Enumeration::Capability)]
        )
    );
    assert!(rt; matches!(rest(Form::Branch), Rest::Nothing));
    assert!(rt; matches!(rest(Form::Switch), Rest::Pairs));
}

#[test]
fn counts_that_may_follow(rt: HostRuntime) {
    assert_eq!(rt;
        [
            allows(Rest::Nothing, 0),
            allows(Rest::Maybe(Slot::Id), 1),
            allows(Rest::Any(Slot::Id, 1), 9),
            allows(Rest::NoneOrThree, 3),
            allows(Rest::Pairs, 4)
        ],
        [true; 5]
    );
    assert_eq!(rt;
        [
            allows(Rest::Nothing, 1),
            allows(Rest::Maybe(Slot::Id), 2),
            allows(Rest::Any(Slot::Id, 1), 0),
            allows(Rest::NoneOrThree, 2),
            allows(Rest::Pairs, 3)
        ],
        [false; 5]
    );
    let many = Rest::Many(Slot::Number, 2, 4);
    assert_eq!(rt;
        [
            allows(many, 1),
            allows(many, 2),
            allows(many, 4),
            allows(many, 5)
        ],
        [false, true, true, false]
    );
}

#[test]
fn counts_of_words(rt: HostRuntime) {
    assert_eq!(rt;
        [
            allows_words(Form::Load, 2),
            allows_words(Form::Load, 3),
            allows_words(Form::Load, 4),
            allows_words(Form::Name, 1),
            allows_words(Form::Name, 2),
            allows_words(Form::Name, 9)
        ],
        [false, true, false, false, true, true]
    );
    assert_eq!(rt;
        [
            has_text(Form::Name),
            has_text(Form::Load),
            is_text(Slot::Text),
            is_text(Slot::Number)
        ],
        [true, false, true, false]
    );
}

/// Whether these are the words of texts one behind the other.
fn are_words(alloc: Global, first: &str, second: &str, words: &[u32]) -> Result<bool, Memory> {
    let mut found = List::new(alloc);
    push_string(&mut found, first)?;
    push_string(&mut found, second)?;
    Ok(found.as_slice() == words)
}

/// The words of one text.
fn are_words_of(alloc: Global, text: &str, words: &[u32]) -> Result<bool, Memory> {
    let mut found = List::new(alloc);
    push_string(&mut found, text)?;
    Ok(found.as_slice() == words)
}

// The words of these texts are worked out by hand: bytes least first, a zero byte at the end.
#[test]
fn texts_to_words(rt: HostRuntime) {
    let alloc = rt.alloc();
    assert_eq!(rt;
        [
            are_words_of(alloc, "main", &[0x6e69_616d, 0]),
            are_words(alloc, "main", "B\u{e9}", &[0x6e69_616d, 0, 0x00a9_c342])
        ],
        [Ok(true), Ok(true)]
    );
}

/// Whether words begin with a text, and how many are left behind it.
fn begins(alloc: Global, words: &[u32], text: &[u8]) -> Result<Option<(bool, usize)>, Memory> {
    let found = text_at(alloc, words)?;
    Ok(match found {
        Some((bytes, left)) => Some((bytes.as_slice() == text, left)),
        None => None,
    })
}

#[test]
fn words_to_texts(rt: HostRuntime) {
    let alloc = rt.alloc();
    assert_eq!(rt;
        [
            begins(alloc, &[0x6e69_616d, 0, 7], b"main"),
            begins(alloc, &[0x6e69_616d], b"main"),
            begins(alloc, &[0x0061_0062], b"b")
        ],
        [Ok(Some((true, 1))), Ok(None), Ok(None)]
    );
}

#[test]
fn texts_that_fit(rt: HostRuntime) {
    let alloc = rt.alloc();
    assert_eq!(rt;
        [
            fits_text(alloc, Form::Name, &[1, 0x0062_6100]),
            fits_text(alloc, Form::Name, &[1, 0x6261]),
            fits_text(alloc, Form::Name, &[1, 0x6261, 0]),
            fits_text(alloc, Form::Name, &[1, 0xff]),
            fits_text(alloc, Form::Return, &[])
        ],
        [Ok(false), Ok(true), Ok(false), Ok(false), Ok(true)]
    );
}

#[test]
fn instructions_by_their_roles(rt: HostRuntime) {
    let load = read(op::LOAD, &[3, 5, 7]);
    assert!(rt;
        matches!(
            load,
            Some(Instruction::Load {
                type_: 3,
                result: 5,
                pointer: 7
            })
        )
    );
    assert!(rt; read(1, &[3]).is_none());
    let shift = read_as(Form::Shift, op::SHIFT_LEFT_LOGICAL, &[1, 2, 3, 4]);
    assert!(rt;
        matches!(
            shift,
            Instruction::Shift {
                op: op::SHIFT_LEFT_LOGICAL,
                type_: 1,
                result: 2,
                base: 3,
                shift: 4
            }
        )
    );
}

/// Whether these words are this one alone.
fn is_one(words: &Operands, word: u32) -> bool {
    words.as_slice() == [word].as_slice()
}

#[test]
fn operands_one_by_one(rt: HostRuntime) {
    let mut parts = Parts::new(Form::EntryPoint, &[5, 4, 0x6261, 9]);
    let model =
        matches!(parts.next(), Some(Part { slot: Slot::Named(Enumeration::Model), words }) if is_one(&words, 5));
    let main =
        matches!(parts.next(), Some(Part { slot: Slot::Forward, words }) if is_one(&words, 4));
    let name =
        matches!(parts.next(), Some(Part { slot: Slot::Text, words }) if is_one(&words, 0x6261));
    let interface =
        matches!(parts.next(), Some(Part { slot: Slot::Forward, words }) if is_one(&words, 9));
    assert_eq!(rt; [model, main, name, interface], [true; 4]);
    assert!(rt; parts.next().is_none());
}

#[test]
fn pairs_of_a_number_and_a_label(rt: HostRuntime) {
    assert!(rt; matches!(next_of(Rest::Pairs, false), Slot::Number));
    assert!(rt; matches!(next_of(Rest::Pairs, true), Slot::Forward));
    assert!(rt; matches!(next_of(Rest::Any(Slot::Id, 1), true), Slot::Id));
}
