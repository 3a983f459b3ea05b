use gsl_base::{Code, Fault, Memory, Place, Punct, Raw, RawKind, Refusal, Text};
use gsl_lex::{MARKS, THREE_BYTES, TWO_BYTES, lex};
use std::alloc::Global;

/// Each raw token after `|` where it starts a line, `_` where it is spaced, or `,`: a word as it is, a
/// number after `'`, a punctuator by its spelling, and a stray byte as `?`.
fn shown(alloc: Global, source: &[u8]) -> Result<Text, Refusal> {
    if source.len() > 4096 {
        return Err(Refusal::Memory);
    }
    let raws = lex(alloc, 0, source)?;
    let mut text = Text::new(alloc);
    show(&mut text, raws.as_slice())?;
    Ok(text)
}

fn show(text: &mut Text, raws: &[Raw]) -> Result<(), Memory> {
    for raw in raws {
        show_space(text, raw)?;
        show_kind(text, &raw.kind)?;
    }
    Ok(())
}

fn show_space(text: &mut Text, raw: &Raw) -> Result<(), Memory> {
    if raw.starts_line {
        text.push('|')?;
    }
    if raw.spaced {
        text.push('_')?;
    }
    if !raw.starts_line && !raw.spaced {
        text.push(',')?;
    }
    Ok(())
}

fn show_kind(text: &mut Text, kind: &RawKind) -> Result<(), Memory> {
    match kind {
        RawKind::Word(word) => show_bytes(text, word.as_str().as_bytes()),
        RawKind::Number(number) => {
            text.push('\'')?;
            show_bytes(text, number.as_str().as_bytes())
        }
        RawKind::Punct(punct) => show_punct(text, *punct),
        RawKind::Stray(_) => text.push('?'),
    }
}

fn show_bytes(text: &mut Text, bytes: &[u8]) -> Result<(), Memory> {
    for byte in bytes {
        text.push(char::from(*byte))?;
    }
    Ok(())
}

fn show_punct(text: &mut Text, punct: Punct) -> Result<(), Memory> {
    let marks = MARKS.as_slice();
    for k in 0..marks.len() {
        if marks[k] == Some(punct) {
            return show_bytes(text, &[b'!' + k as u8]);
        }
    }
    for rows in [TWO_BYTES.as_slice(), THREE_BYTES.as_slice()] {
        for (spelling, one) in rows {
            if *one == punct {
                return show_bytes(text, spelling);
            }
        }
    }
    Ok(())
}

/// Whether each source is shown as its row says.
fn agree(alloc: Global, rows: &[(&[u8], &str)]) -> Result<bool, Refusal> {
    for (source, expected) in rows {
        let text = shown(alloc, source)?;
        if text.as_str() != *expected {
            return Ok(false);
        }
    }
    Ok(true)
}

/// Each punctuator, and pairs whose spellings together are another.
const PUNCTUATORS: [(&[u8], &str); 9] = [
    (b"( ) [ ] { } . , ; : ?", "|(_)_[_]_{_}_._,_;_:_?"),
    (b"++ -- + - ~ ! * / %", "|++_--_+_-_~_!_*_/_%"),
    (b"<< >> < > <= >= == !=", "|<<_>>_<_>_<=_>=_==_!="),
    (b"& ^ | && ^^ || =", "|&_^_|_&&_^^_||_="),
    (
        b"+= -= *= /= %= <<= >>= &= ^= |= #",
        "|+=_-=_*=_/=_%=_<<=_>>=_&=_^=_|=_#",
    ),
    (
        b"+ + - - < < > > & & ^ ^ | | = =",
        "|+_+_-_-_<_<_>_>_&_&_^_^_|_|_=_=",
    ),
    (
        b"< = > = ! = + = - = << = >> = * = / =",
        "|<_=_>_=_!_=_+_=_-_=_<<_=_>>_=_*_=_/_=",
    ),
    (
        b"% = & = ^ = | = < < = > > =",
        "|%_=_&_=_^_=_|_=_<_<_=_>_>_=",
    ),
    (
        b"<<<=>>>==+++--->=&&&|||^^^=",
        "|<<,<=,>>,>=,=,++,+,--,-,>=,&&,&,||,|,^^,^=",
    ),
];

#[test]
fn the_longest_punctuator_is_taken(rt: HostRuntime) {
    assert_eq!(rt; agree(rt.alloc(), &PUNCTUATORS), Ok(true));
}

/// Numbers go as far as they can, and words are no numbers.
const NUMBERS: [(&[u8], &str); 9] = [
    (b"1e+5 0x1e+5", "|'1e+5_'0x1e,+,'5"),
    (b"1E-5u 0X1E-5u", "|'1E-5u_'0X1E,-,'5u"),
    (b".5 1. .5.6e+ ..5 .e", "|'.5_'1._'.5.6e+_.,'.5_.,e"),
    (
        b"0x 08 4294967295 1uu 0xg_z",
        "|'0x_'08_'4294967295_'1uu_'0xg_z",
    ),
    (b"1+1 1e 1f+2 1e++", "|'1,+,'1_'1e_'1f,+,'2_'1e+,+"),
    (
        b"0xe+1 0e+1 00xe+1 .0xe+1",
        "|'0xe,+,'1_'0e+1_'00xe+1_'.0xe+1",
    ),
    (b"a1 _b9_ Z0z a.b 1.x", "|a1__b9__Z0z_a,.,b_'1.x"),
    (b"a$b @ \\ \" ' `", "|a,?,b_?_?_?_?_?"),
    (b"\x00a\x80\xFF\x1F", "|?,a,?,?,?"),
];

#[test]
fn numbers_and_words_are_told_apart(rt: HostRuntime) {
    assert_eq!(rt; agree(rt.alloc(), &NUMBERS), Ok(true));
}

/// Line ends, joined lines and white space.
const LINES: [(&[u8], &str); 12] = [
    (b"", ""),
    (b" \t\x0B\x0C", ""),
    (b"a\rb\nc\r\nd\n\re", "|a|_b|_c|_d|_e"),
    (b" a\tb\x0Bc\x0Cd \n\n e", "|_a_b_c_d|_e"),
    (b"a\\\nb 1\\\r\n2 <\\\r<\\\n\r=", "|ab_'12_<<="),
    (b"a \\\n b\\\n\\\nc", "|a_bc"),
    (b"a\\", "|a,?"),
    (b"a\\\n", "|a"),
    (b"a\\ \nb", "|a,?|_b"),
    (b"\\\\\nb", "|?,b"),
    (b"\\\n#\\\ndefine", "|#,define"),
    (b"1e\\\n+5 .\\\n5 0\\\nx1e+1", "|'1e+5_'.5_'0x1e,+,'1"),
];

#[test]
fn lines_end_and_join(rt: HostRuntime) {
    assert_eq!(rt; agree(rt.alloc(), &LINES), Ok(true));
}

/// Comments read as one space.
const COMMENTS: [(&[u8], &str); 14] = [
    (b"a/**/b/* * / */c", "|a_b_c"),
    (b"/*/*/a", "|_a"),
    (b"a/***/b/****/c", "|a_b_c"),
    (b"a//b\nc//", "|a|_c"),
    (b"a//b\\\nc\nd", "|a|_d"),
    (b"a/\\\n/b\nc", "|a|_c"),
    (b"a/\\\n*b*\\\n/c", "|a_c"),
    (b"a/*\n\n*/b", "|a_b"),
    (b"/*\n*/a", "|_a"),
    (b"a/*//*/b//*/\nc", "|a_b|_c"),
    (b"a/*\x00\x80\xFF*/b//\x00\xFF\nc", "|a_b|_c"),
    (b"a/b*/c", "|a,/,b,*,/,c"),
    (b"a/ /b/ *c* /", "|a,/_/,b,/_*,c,*_/"),
    (b"/*a*/*/", "|_*,/"),
];

#[test]
fn comments_are_spaces(rt: HostRuntime) {
    assert_eq!(rt; agree(rt.alloc(), &COMMENTS), Ok(true));
}

/// The physical line of the last token.
fn last_line(alloc: Global, source: &[u8]) -> Result<u32, Refusal> {
    if source.len() > 4096 {
        return Err(Refusal::Memory);
    }
    let mut raws = lex(alloc, 7, source)?;
    match raws.pop() {
        Some(raw) => Ok(raw.place.line),
        None => Ok(0),
    }
}

const LAST_LINES: [(&[u8], u32); 11] = [
    (b"a", 1),
    (b"\na", 2),
    (b"\r\na", 2),
    (b"\n\ra", 2),
    (b"\r\n\r\na", 3),
    (b"\r\ra", 3),
    (b"\n\r\na", 3),
    (b"\\\na", 2),
    (b"\\\r\n\\\r\na", 3),
    (b"/*\n\n*/a", 3),
    (b"a\\\nb", 1),
];

#[test]
fn lines_are_physical(rt: HostRuntime) -> Result<(), std::test::Fail> {
    for (source, line) in &LAST_LINES {
        assert_eq!(rt; last_line(rt.alloc(), source), Ok(*line));
    }
    Ok(())
}

/// Comments that are not closed, and the lines of their starts.
const OPEN: [(&[u8], u32); 7] = [
    (b"/*", 1),
    (b"/*/", 1),
    (b"/**", 1),
    (b"a\n/* // \n * /", 2),
    (b"/**/\n\n  /*\\\n*", 3),
    (b"\\\n/\\\n*", 2),
    (b"// /*\n/* \x00", 2),
];

#[test]
fn a_comment_that_is_not_closed_is_a_fault(rt: HostRuntime) -> Result<(), std::test::Fail> {
    for (source, line) in &OPEN {
        let fault = Refusal::Source(Fault {
            place: Place {
                unit: 7,
                line: *line,
            },
            code: Code::E0102,
        });
        assert_eq!(rt; last_line(rt.alloc(), source), Err(fault));
    }
    Ok(())
}
