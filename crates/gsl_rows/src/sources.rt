//! Texts: their live tokens, their trees, and what they compile to.

use gsl_base::{Bytes, Fault, Kind, Memory, Raw, Raws, Refusal, Sources, Stage, Token, Tokens};
use gsl_cmd::compile;
use gsl_lex::{cook, lex};
use gsl_outline::{Done, Outline, key_word, punct, unit};
use gsl_parse::parse;
use gsl_pp::preprocess;
use gsl_syntax::Unit;
use std::alloc::Global;

/// The longest text that is looked at.
const MAX_BYTES: usize = 16_777_216;

/// The tree of a text: its raw tokens, made live one by one, and parsed.
fn parsed(alloc: Global, source: &[u8]) -> Result<Unit, Refusal> {
    if source.len() > MAX_BYTES {
        return Err(Refusal::Memory);
    }
    let raws = lex(alloc, 0, source)?;
    let tokens = cooked(alloc, raws)?;
    parse(alloc, &tokens)
}

/// Raw tokens, made live one by one.
fn cooked(alloc: Global, raws: Raws) -> Result<Tokens, Refusal> {
    let mut raws = raws.into_vec();
    raws.reverse();
    let mut tokens = Tokens::new(alloc);
    for _k in 0..raws.len() {
        cook_last(&mut raws, &mut tokens)?;
    }
    Ok(tokens)
}

fn cook_last(raws: &mut Vec<Raw>, tokens: &mut Tokens) -> Result<(), Refusal> {
    if let Some(raw) = raws.pop() {
        tokens.push(cook(raw)?)?;
    }
    Ok(())
}

/// The live tokens of a text.
fn live(alloc: Global, source: &[u8]) -> Result<Tokens, Refusal> {
    if source.len() > MAX_BYTES {
        return Err(Refusal::Memory);
    }
    let raws = lex(alloc, 0, source)?;
    preprocess(alloc, 0, raws)
}

/// The tree of a source.
pub fn source_tree(alloc: Global, source: &[u8]) -> Result<Unit, Refusal> {
    let tokens = live(alloc, source)?;
    parse(alloc, &tokens)
}

/// Prints the live tokens of a text in one line, or its first fault.
pub fn tokens(alloc: Global, out: &mut Outline, source: &[u8]) -> Done {
    match live(alloc, source) {
        Ok(tokens) => token_line(out, tokens.as_slice()),
        Err(Refusal::Source(fault)) => faulty(out, &fault),
        Err(Refusal::Memory) => Err(Memory),
    }
}

fn token_line(out: &mut Outline, tokens: &[Token]) -> Done {
    if tokens.is_empty() {
        return out.put("no token\n");
    }
    let mut separator = "";
    for token in tokens {
        out.put(separator)?;
        separator = " ";
        kind(out, &token.kind)?;
    }
    out.end_line()
}

/// Prints the live tokens of a text, each with its line behind a colon, or its first fault.
pub fn places(alloc: Global, out: &mut Outline, source: &[u8]) -> Done {
    match live(alloc, source) {
        Ok(tokens) => placed_line(out, tokens.as_slice()),
        Err(Refusal::Source(fault)) => faulty(out, &fault),
        Err(Refusal::Memory) => Err(Memory),
    }
}

fn placed_line(out: &mut Outline, tokens: &[Token]) -> Done {
    let mut separator = "";
    for token in tokens {
        out.put(separator)?;
        separator = " ";
        kind(out, &token.kind)?;
        out.node("", token.place)?;
    }
    out.end_line()
}

fn kind(out: &mut Outline, kind: &Kind) -> Done {
    match kind {
        Kind::Name(name) => out.put(name.as_str()),
        Kind::Key(key) => out.put(key_word(*key)),
        Kind::Signed(word) => out.number(u64::from(*word)),
        Kind::Unsigned(word) => {
            out.number(u64::from(*word))?;
            out.put("u")
        }
        Kind::Punct(mark) => out.put(punct(*mark)),
    }
}

/// Prints the tree of a text, or that it has one; or its first fault with its line.
pub fn tree(alloc: Global, out: &mut Outline, source: &[u8], whole: bool) -> Done {
    match parsed(alloc, source) {
        Ok(tree) if whole => unit(out, &tree),
        Ok(_) => out.put("parsed\n"),
        Err(Refusal::Source(fault)) => faulty(out, &fault),
        Err(Refusal::Memory) => Err(Memory),
    }
}

/// A fault's code and line.
pub fn faulty(out: &mut Outline, fault: &Fault) -> Done {
    out.code(fault.code)?;
    out.put(" line ")?;
    out.number(u64::from(fault.place.line))?;
    out.end_line()
}

/// Prints for each stage whether a text compiles.
pub fn stages(alloc: Global, out: &mut Outline, source: &[u8]) -> Done {
    for (name, stage) in [
        ("vert ", Stage::Vertex),
        ("frag ", Stage::Fragment),
        ("comp ", Stage::Compute),
    ] {
        out.put(name)?;
        put_stage(alloc, out, stage, source)?;
    }
    Ok(())
}

fn put_stage(alloc: Global, out: &mut Outline, stage: Stage, source: &[u8]) -> Done {
    match compiled(alloc, stage, source) {
        Ok(()) => out.put("compiled\n"),
        Err(Refusal::Source(fault)) => faulty(out, &fault),
        Err(Refusal::Memory) => Err(Memory),
    }
}

fn compiled(alloc: Global, stage: Stage, source: &[u8]) -> Result<(), Refusal> {
    let mut sources = Sources::new(alloc);
    sources.push(Bytes::from_slice(alloc, source)?)?;
    compile(alloc, stage, &sources)?;
    Ok(())
}
