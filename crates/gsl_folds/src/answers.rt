//! The cases of a file, line by line, and what is printed of them.

use crate::computed::put_computed;
use crate::expressions::expression;
use crate::layouts::{put_components, put_converts, put_layout, put_leaves, put_same};
use crate::misread::Misread;
use crate::types::{direction, read_type};
use gsl_base::{Bytes, List, Memory};
use gsl_fold::{Consts, Folded, constant};
use gsl_overload::{Choice, Params, Signatures, choose};
use gsl_types::{Structs, Types};
use gsl_values::Value;
use std::alloc::Global;

/// Prints one line for each case of a text.
pub fn run_text(alloc: Global, out: &mut Bytes, text: &str) -> Result<(), Memory> {
    let mut consts = Consts {
        locals: List::new(alloc),
        globals: List::new(alloc),
    };
    for line in text.lines() {
        match run_line(alloc, out, &mut consts, line) {
            Ok(()) => {}
            Err(Misread::Form) => {
                out.extend_from_slice(b"not of the form: ")?;
                out.extend_from_slice(line.as_bytes())?;
                out.extend_from_slice(b"\n")?;
            }
            Err(Misread::Memory) => return Err(Memory),
        }
    }
    Ok(())
}

fn run_line(
    alloc: Global,
    out: &mut Bytes,
    consts: &mut Consts,
    line: &str,
) -> Result<(), Misread> {
    if line.is_empty() || line.starts_with('#') {
        return Ok(());
    }
    let (word, rest) = line.split_once(' ').unwrap_or((line, ""));
    match word {
        "local" => {
            let folded = fold(alloc, consts, rest)?;
            consts.locals.push(folded)?;
        }
        "global" => {
            let folded = fold(alloc, consts, rest)?;
            consts.globals.push(folded)?;
        }
        "fold" => {
            let folded = fold(alloc, consts, rest)?;
            put_folded(alloc, out, &folded)?;
        }
        "choose" => put_choice(alloc, out, rest)?,
        "word" => put_computed(alloc, out, rest)?,
        _ => run_type_line(alloc, out, word, rest)?,
    }
    Ok(())
}

/// A line of types.
fn run_type_line(alloc: Global, out: &mut Bytes, word: &str, rest: &str) -> Result<(), Misread> {
    match word {
        "leaves" => put_leaves(alloc, out, rest),
        "components" => put_components(alloc, out, rest),
        "converts" => put_converts(alloc, out, rest),
        "same" => put_same(alloc, out, rest),
        "layout" => put_layout(alloc, out, rest),
        _ => Err(Misread::Form),
    }
}

/// What is known of an expression.
fn fold(alloc: Global, consts: &Consts, words: &str) -> Result<Folded, Misread> {
    let e = expression(alloc, words)?;
    let folded = constant(alloc, &Structs::new(alloc), consts, &e)?;
    Ok(folded)
}

fn put_folded(alloc: Global, out: &mut Bytes, folded: &Folded) -> Result<(), Memory> {
    match folded {
        Folded::Known(value) => {
            out.extend_from_slice(b"known")?;
            put_value(alloc, out, value)?;
        }
        Folded::NotConstant => out.extend_from_slice(b"not constant")?,
        Folded::Free => out.extend_from_slice(b"free")?,
    }
    out.extend_from_slice(b"\n")
}

/// The words of a scalar, a vector, or an array of them.
fn put_value(alloc: Global, out: &mut Bytes, value: &Value) -> Result<(), Memory> {
    match value {
        Value::Word(word) => put_word(alloc, out, *word),
        Value::Many(parts) => {
            for k in 0..parts.len() {
                put_part(alloc, out, &parts[k])?;
            }
            Ok(())
        }
    }
}

fn put_part(alloc: Global, out: &mut Bytes, part: &Value) -> Result<(), Memory> {
    match part {
        Value::Word(word) => put_word(alloc, out, *word),
        Value::Many(parts) => {
            for k in 0..parts.len() {
                if let Value::Word(word) = &parts[k] {
                    put_word(alloc, out, *word)?;
                }
            }
            Ok(())
        }
    }
}

fn put_word(alloc: Global, out: &mut Bytes, word: u32) -> Result<(), Memory> {
    let digits = format!(in alloc; " {word:08x}")?;
    out.extend_from_slice(digits.as_bytes())
}

/// Prints the place of the candidate that a call chooses: `DIRECTION:TYPE .. ; .. <- TYPE ..`, and `none` for a candidate without
/// parameters.
fn put_choice(alloc: Global, out: &mut Bytes, rest: &str) -> Result<(), Misread> {
    let Some((left, right)) = rest.split_once("<-") else {
        return Err(Misread::Form);
    };
    let candidates = candidates(alloc, left)?;
    let mut args = Types::new(alloc);
    for name in right.split_whitespace() {
        args.push(read_type(alloc, name)?)?;
    }
    let text = match choose(&candidates, &args) {
        Ok(place) => format!(in alloc; "{place}\n")?,
        Err(Choice::NoMatch) => format!(in alloc; "no match\n")?,
        Err(Choice::Ambiguous) => format!(in alloc; "ambiguous\n")?,
    };
    out.extend_from_slice(text.as_bytes())?;
    Ok(())
}

fn candidates(alloc: Global, text: &str) -> Result<Signatures, Misread> {
    let mut found = Signatures::new(alloc);
    for part in text.split(';') {
        if !part.trim().is_empty() {
            found.push(parameters(alloc, part)?)?;
        }
    }
    Ok(found)
}

fn parameters(alloc: Global, text: &str) -> Result<Params, Misread> {
    let mut found = Params::new(alloc);
    for word in text.split_whitespace() {
        if word != "none" {
            let (way, name) = word.split_once(':').unwrap_or((word, ""));
            found.push((direction(way)?, read_type(alloc, name)?))?;
        }
    }
    Ok(found)
}
