use gsl_base::{Code, Fault, Kind, Place, Raws, Refusal, Tokens};
use gsl_lex::lex;
use gsl_pp::{Feed, preprocess};
use std::alloc::Global;
use std::test::Fail;

fn raws(alloc: Global, text: &str) -> Result<Raws, Refusal> {
    let bytes = text.as_bytes();
    if bytes.len() >= 1000 {
        return Err(Refusal::Memory);
    }
    lex(alloc, 4, bytes)
}

/// The fault of a refusal.
fn fault_of<T: Drop>(answer: Result<T, Refusal>) -> Option<Fault> {
    match answer {
        Err(Refusal::Source(fault)) => Some(fault),
        _ => None,
    }
}

fn at(line: u32, code: Code) -> Option<Fault> {
    Some(Fault {
        place: Place { unit: 4, line },
        code,
    })
}

/// The live tokens of a text.
fn live(alloc: Global, text: &str) -> Result<Tokens, Refusal> {
    let raws = raws(alloc, text)?;
    preprocess(alloc, 4, raws)
}

/// Whether these are the name `a` and the literal 4, both on line 4.
fn are_name_and_file(tokens: &Tokens) -> bool {
    let here = Place { unit: 4, line: 4 };
    match tokens.as_slice() {
        [name, file] => {
            name.place == here
                && is_name(&name.kind)
                && file.place == here
                && matches!(file.kind, Kind::Signed(4))
        }
        _ => false,
    }
}

fn is_name(kind: &Kind) -> bool {
    match kind {
        Kind::Name(text) => text.as_str() == "a",
        _ => false,
    }
}

#[test]
fn live_tokens(rt: HostRuntime) -> Result<(), Fail> {
    let text = "#version 450\n#define f(x) x __FILE__\n#if VULKAN\nf(\na)\n#endif\n";
    let tokens = live(rt.alloc(), text)?;
    assert!(rt; are_name_and_file(&tokens));
    Ok(())
}

/// Whether a feed gives one token, and then what it answers twice.
fn drawn_thrice(feed: &mut Feed) -> Result<(bool, [Option<Fault>; 2]), Refusal> {
    let first = feed.next()?.is_some();
    Ok((first, [fault_of(feed.next()), fault_of(feed.next())]))
}

fn fed(alloc: Global, text: &str) -> Result<(bool, [Option<Fault>; 2]), Refusal> {
    let raws = raws(alloc, text)?;
    let mut feed = Feed::new(alloc, 4, raws)?;
    drawn_thrice(&mut feed)
}

#[test]
fn a_refusal_is_given_again(rt: HostRuntime) -> Result<(), Fail> {
    let (first, faults) = fed(rt.alloc(), "#version 450\n;\n#error\n")?;
    assert!(rt; first);
    assert_eq!(rt; faults, [at(3, Code::E0213), at(3, Code::E0213)]);
    Ok(())
}

/// Texts, and the lines and codes of their first faults.
const FAULTS: [(&str, u32, Code); 3] = [
    ("", 1, Code::E0211),
    ("#version 450\n#if 1\n#ifdef X\n", 2, Code::E0203),
    ("#version 450\n#define A 1\n#define A 2\n", 3, Code::E0209),
];

#[test]
fn first_faults(rt: HostRuntime) {
    for (text, line, code) in &FAULTS {
        assert_eq!(rt; fault_of(live(rt.alloc(), text)), at(*line, *code));
    }
}
