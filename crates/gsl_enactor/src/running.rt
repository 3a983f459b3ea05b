//! Running cases over hosts in memory, and printing what came.

use crate::case::{Case, read_cases};
use crate::command::enactor;
use gsl_asm::{AsmFault, assemble};
use gsl_base::{Bytes, Memory, Text, Words};
use gsl_host::{Host, MemHost, Stream};
use gsl_outline::{Done, Outline};
use gsl_words::encode;
use std::alloc::Global;

/// The largest file of cases.
const MAX_BYTES: usize = 16_777_216;

/// Runs the cases of files, and gives the status: 0, or 1 where a file could not be run to its end.
pub fn run_files<H: Host>(alloc: Global, names: &[Text], host: &mut H) -> u8 {
    let mut status = 0;
    for name in names {
        if run_file(alloc, name, host).is_err() {
            status = 1;
        }
    }
    status
}

/// Runs the cases of a file, and prints what came.
fn run_file<H: Host>(alloc: Global, name: &Text, host: &mut H) -> Result<(), Memory> {
    let mut out = Outline::new(alloc);
    match host.read_file(alloc, name, MAX_BYTES) {
        Ok(bytes) => run_text(alloc, &mut out, bytes.as_slice())?,
        Err(_) => {
            out.put(name.as_str())?;
            out.put(" cannot be read\n")?;
        }
    }
    host.print(alloc, Stream::Out, out.bytes())
        .map_err(|_| Memory)
}

fn run_text(alloc: Global, out: &mut Outline, bytes: &[u8]) -> Done {
    let Ok(text) = std::str::from_utf8(bytes) else {
        return out.put("no UTF-8\n");
    };
    let cases = read_cases(alloc, text)?;
    for case in &cases {
        run_case(alloc, out, case)?;
    }
    Ok(())
}

/// Runs a case, once for each of its alternatives, and prints its title and what came.
fn run_case(alloc: Global, out: &mut Outline, case: &Case) -> Done {
    out.put("case ")?;
    out.put(case.title.as_str())?;
    out.end_line()?;
    if case.each.is_empty() {
        return run_one(alloc, out, case, "");
    }
    for each in &case.each {
        out.put("each ")?;
        out.put(each.as_str())?;
        out.end_line()?;
        run_one(alloc, out, case, each.as_str())?;
    }
    Ok(())
}

/// A text with an alternative in place of `<each>`, which stands once at most in a line.
fn filled(alloc: Global, text: &str, each: &str) -> Result<String, Memory> {
    let mut all = String::new(alloc);
    for line in text.lines() {
        match line.split_once("<each>") {
            None => all.push_str(line)?,
            Some((front, behind)) => {
                all.push_str(front)?;
                all.push_str(each)?;
                all.push_str(behind)?;
            }
        }
        all.push_str("\n")?;
    }
    Ok(all)
}

/// The file of the module that a text is of, or the line that is none of one.
fn module_file(alloc: Global, text: &str) -> Result<Bytes, AsmFault> {
    let bytes = text.as_bytes();
    if bytes.len() > MAX_BYTES {
        return Err(AsmFault::Memory);
    }
    let module = assemble(alloc, bytes)?;
    let mut file = Bytes::new(alloc);
    encode(&module, &mut file)?;
    Ok(file)
}

/// Runs a case with an alternative over a host that has its files, and prints the status if it is not 0, and what was printed.
fn run_one(alloc: Global, out: &mut Outline, case: &Case, each: &str) -> Done {
    let text = filled(alloc, case.text.as_str(), each)?;
    match module_file(alloc, text.as_str()) {
        Ok(file) => run_module(alloc, out, case, each, file.as_slice()),
        Err(AsmFault::Line(line)) => {
            out.put("no module, line ")?;
            out.number(u64::from(line))?;
            out.end_line()
        }
        Err(AsmFault::Memory) => Err(Memory),
    }
}

fn run_module(alloc: Global, out: &mut Outline, case: &Case, each: &str, file: &[u8]) -> Done {
    let mut host = MemHost::new(alloc, &[])?;
    let words = lay_out(alloc, case, each, file, &mut host)?;
    let status = enactor(alloc, &words, &mut host);
    if status != 0 {
        out.put("status ")?;
        out.number(u64::from(status))?;
        out.end_line()?;
    }
    out.put_bytes(host.out())?;
    out.put_bytes(host.err())
}

/// Puts the files of a case on the host, and gives the words of its command line.
fn lay_out(
    alloc: Global,
    case: &Case,
    each: &str,
    file: &[u8],
    host: &mut MemHost,
) -> Result<Words, Memory> {
    let manifest = filled(alloc, case.manifest.as_str(), each)?;
    host.put_file(&Text::from_str(alloc, "module")?, file)?;
    host.put_file(
        &Text::from_str(alloc, "inputs")?,
        manifest.as_str().as_bytes(),
    )?;
    for (name, bytes) in &case.files {
        host.put_file(&Text::from_str(alloc, name.as_str())?, bytes.as_slice())?;
    }
    let mut words = Words::new(alloc);
    words.push(Text::from_str(alloc, "enactor")?)?;
    words.push(Text::from_str(alloc, "module")?)?;
    words.push(Text::from_str(alloc, "inputs")?)?;
    Ok(words)
}
