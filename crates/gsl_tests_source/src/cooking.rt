use gsl_base::{Code, Fault, Key, Kind, Memory, Place, Raw, RawKind, Refusal, Text, Token};
use gsl_lex::{cook, lex};
use std::alloc::Global;

/// The first token of the source, as a live one.
fn cooked(alloc: Global, source: &[u8]) -> Result<Token, Refusal> {
    if source.len() > 4096 {
        return Err(Refusal::Memory);
    }
    let mut raws = lex(alloc, 7, source)?.into_vec();
    raws.reverse();
    match raws.pop() {
        Some(raw) => cook(raw),
        None => Err(Refusal::Memory),
    }
}

/// The bits of a literal, and whether it has the suffix.
fn literal(alloc: Global, source: &[u8]) -> Result<Option<(u32, bool)>, Refusal> {
    let token = cooked(alloc, source)?;
    Ok(match token.kind {
        Kind::Signed(value) => Some((value, false)),
        Kind::Unsigned(value) => Some((value, true)),
        _ => None,
    })
}

const LITERALS: [(&[u8], (u32, bool)); 14] = [
    (b"0", (0, false)),
    (b"0u", (0, true)),
    (b"7", (7, false)),
    (b"10U", (10, true)),
    (b"017", (15, false)),
    (b"00000000000000000000000000000000001", (1, false)),
    (b"0x1F", (31, false)),
    (b"0XFFu", (255, true)),
    (b"0xabcdefU", (11259375, true)),
    (b"2147483648", (2147483648, false)),
    (b"4294967295", (4294967295, false)),
    (b"0xffffffffu", (4294967295, true)),
    (b"037777777777", (4294967295, false)),
    (b"1\\\n2", (12, false)),
];

#[test]
fn literals_have_their_bits(rt: HostRuntime) -> Result<(), std::test::Fail> {
    for (source, bits) in &LITERALS {
        assert_eq!(rt; literal(rt.alloc(), source), Ok(Some(*bits)));
    }
    Ok(())
}

/// The code of the fault of the first token, if it has one.
fn fault(alloc: Global, source: &[u8]) -> Result<Option<Code>, Memory> {
    match cooked(alloc, source) {
        Ok(_) => Ok(None),
        Err(Refusal::Source(fault)) => Ok(Some(fault.code)),
        Err(Refusal::Memory) => Err(Memory),
    }
}

const NUMBER_FAULTS: [(&[u8], Code); 22] = [
    (b"$", Code::E0101),
    (b"\x80", Code::E0101),
    (b"\x00", Code::E0101),
    (b"4294967296", Code::E0103),
    (b"0x100000000", Code::E0103),
    (b"040000000000u", Code::E0103),
    (b"99999999999999999999999", Code::E0103),
    (b"0x", Code::E0103),
    (b"0xu", Code::E0103),
    (b"08", Code::E0103),
    (b"0b1", Code::E0103),
    (b"1uu", Code::E0103),
    (b"1_0", Code::E0103),
    (b"0xg", Code::E0103),
    (b"12a", Code::E0103),
    (b".5", Code::E0104),
    (b"1.", Code::E0104),
    (b"0x1.8", Code::E0104),
    (b"1e5", Code::E0104),
    (b"1E+5", Code::E0104),
    (b"2f", Code::E0104),
    (b"08F", Code::E0104),
];

#[test]
fn other_numbers_and_stray_bytes_are_faults(rt: HostRuntime) -> Result<(), std::test::Fail> {
    for (source, code) in &NUMBER_FAULTS {
        assert_eq!(rt; fault(rt.alloc(), source), Ok(Some(*code)));
    }
    Ok(())
}

/// Refused words of each table, and how many a row has.
const REFUSED: [(&[u8], usize); 3] = [
    (
        b"float sampler hvec2 precision using atomicAdd gl_FragCoord",
        7,
    ),
    (
        b"mat2 dmat4x3 sampler1D isampler2DMSArray utextureCubeArray image2DRect",
        6,
    ),
    (b"sampler1DShadow samplerCubeArrayShadow", 2),
];

/// How many words of the source are refused, or `None` where one is not.
fn refused(alloc: Global, source: &[u8]) -> Result<Option<usize>, Refusal> {
    if source.len() > 4096 {
        return Err(Refusal::Memory);
    }
    let mut raws = lex(alloc, 0, source)?.into_vec();
    let count = raws.len();
    for _k in 0..count {
        let Some(raw) = raws.pop() else {
            return Ok(None);
        };
        match cook(raw) {
            Err(Refusal::Source(fault)) if fault.code == Code::E0105 => {}
            _ => return Ok(None),
        }
    }
    Ok(Some(count))
}

#[test]
fn words_that_the_profile_lacks_are_refused(rt: HostRuntime) -> Result<(), std::test::Fail> {
    for (words, count) in &REFUSED {
        assert_eq!(rt; refused(rt.alloc(), words), Ok(Some(*count)));
    }
    Ok(())
}

fn key(alloc: Global, source: &[u8]) -> Result<Option<Key>, Refusal> {
    let token = cooked(alloc, source)?;
    Ok(match token.kind {
        Kind::Key(key) => Some(key),
        _ => None,
    })
}

#[test]
fn keywords_are_told(rt: HostRuntime) -> Result<(), std::test::Fail> {
    assert_eq!(rt; key(rt.alloc(), b"buffer"), Ok(Some(Key::Buffer)));
    assert_eq!(rt; key(rt.alloc(), b"while"), Ok(Some(Key::While)));
    assert_eq!(rt; key(rt.alloc(), b"discard"), Ok(Some(Key::Discard)));
    assert_eq!(rt; key(rt.alloc(), b"name"), Ok(None));
    Ok(())
}

/// Words that no table has: names.
const NAMES: [&[u8]; 10] = [
    b"mat5",
    b"mat2x",
    b"mat2x34",
    b"imat2",
    b"sampler4D",
    b"isampler2DShadow",
    b"image",
    b"Const",
    b"std140",
    b"gl_WorkGroupID",
];

/// Whether the first token of a source is this word, on line 1 of unit 7.
fn is_cooked(alloc: Global, word: &[u8]) -> Result<bool, Refusal> {
    let token = cooked(alloc, word)?;
    Ok(token.place == Place { unit: 7, line: 1 } && is_name(&token.kind, word))
}

#[test]
fn other_words_are_names(rt: HostRuntime) {
    for word in &NAMES {
        assert_eq!(rt; is_cooked(rt.alloc(), word), Ok(true));
    }
}

fn is_name(kind: &Kind, word: &[u8]) -> bool {
    match kind {
        Kind::Name(text) => text.as_str().as_bytes() == word,
        _ => false,
    }
}

/// The length of a name.
fn len_of(kind: &Kind) -> Option<usize> {
    match kind {
        Kind::Name(text) => Some(text.as_str().len()),
        _ => None,
    }
}

/// A word of so many bytes.
fn word_of_len(alloc: Global, len: usize) -> Result<Raw, Memory> {
    let mut text = Text::new(alloc);
    for _ in 0..len {
        text.push('a')?;
    }
    Ok(Raw {
        place: Place { unit: 0, line: 3 },
        kind: RawKind::Word(text),
        starts_line: false,
        spaced: false,
    })
}

/// The length of the name that a word of so many bytes is.
fn cooked_len(alloc: Global, len: usize) -> Result<Option<usize>, Refusal> {
    let word = word_of_len(alloc, len)?;
    let token = cook(word)?;
    Ok(len_of(&token.kind))
}

#[test]
fn a_word_has_at_most_1024_bytes(rt: HostRuntime) {
    let fault = Fault {
        place: Place { unit: 0, line: 3 },
        code: Code::E0106,
    };
    assert_eq!(rt; cooked_len(rt.alloc(), 1024), Ok(Some(1024)));
    assert_eq!(rt; cooked_len(rt.alloc(), 1025), Err(Refusal::Source(fault)));
}
