//! Running cases over hosts in memory, and printing what came.

use crate::case::{Case, read_cases};
use crate::command::reference;
use gsl_base::{Memory, Text, Words};
use gsl_cmd::glsl_main;
use gsl_host::{Host, MemHost, Stream};
use gsl_outline::{Done, Outline};
use std::alloc::Global;

/// The largest file of cases.
const MAX_BYTES: usize = 16_777_216;

/// Runs the cases of files, and gives the status: 0, or 1 where a file could not be run to its end.
pub fn run_cases<H: Host>(alloc: Global, names: &[Text], host: &mut H) -> u8 {
    let mut status = 0;
    for name in names {
        if run_file(alloc, name, host).is_err() {
            status = 1;
        }
    }
    status
}

/// Runs the cases of a file, and prints what came.
fn run_file<H: Host>(alloc: Global, name: &Text, host: &mut H) -> Result<(), Memory> {
    let mut out = Outline::new(alloc);
    match host.read_file(alloc, name, MAX_BYTES) {
        Ok(bytes) => run_text(alloc, &mut out, bytes.as_slice())?,
        Err(_) => {
            out.put(name.as_str())?;
            out.put(" cannot be read\n")?;
        }
    }
    host.print(alloc, Stream::Out, out.bytes())
        .map_err(|_| Memory)
}

fn run_text(alloc: Global, out: &mut Outline, bytes: &[u8]) -> Done {
    let Ok(text) = std::str::from_utf8(bytes) else {
        return out.put("no UTF-8\n");
    };
    let cases = read_cases(alloc, text)?;
    for case in &cases {
        run_case(alloc, out, case)?;
    }
    Ok(())
}

/// The name of the source of this number.
fn source_name(alloc: Global, number: usize) -> Result<Text, Memory> {
    let name = format!(in alloc; "{number}")?;
    Text::from_str(alloc, name.as_str())
}

/// Runs a case over a host that has its files, and prints its title, the status if it is not 0, and what was printed; and what the
/// shader's module gives, where that is something else.
fn run_case(alloc: Global, out: &mut Outline, case: &Case) -> Done {
    out.put("case ")?;
    out.put(case.title.as_str())?;
    out.end_line()?;
    let mut host = MemHost::new(alloc, &[])?;
    let words = lay_out(alloc, case, &["reference"], &mut host)?;
    let status = reference(alloc, &words, &mut host);
    tell(out, status, &host)?;
    let mut beside = MemHost::new(alloc, &[])?;
    let words = lay_out(alloc, case, &["gsl", "run"], &mut beside)?;
    let other = glsl_main(alloc, &words, &mut beside);
    if status == other && host.out() == beside.out() {
        return Ok(());
    }
    out.put("run\n")?;
    tell(out, other, &beside)
}

/// The status if it is not 0, and what was printed.
fn tell(out: &mut Outline, status: u8, host: &MemHost) -> Done {
    if status != 0 {
        out.put("status ")?;
        out.number(u64::from(status))?;
        out.end_line()?;
    }
    out.put_bytes(host.out())?;
    out.put_bytes(host.err())
}

/// Puts the files of a case on the host, and gives the words of a command line that begins so.
fn lay_out(
    alloc: Global,
    case: &Case,
    first: &[&str],
    host: &mut MemHost,
) -> Result<Words, Memory> {
    let mut words = Words::new(alloc);
    for word in first {
        words.push(Text::from_str(alloc, word)?)?;
    }
    words.push(Text::from_str(alloc, case.stage.as_str())?)?;
    words.push(Text::from_str(alloc, "inputs")?)?;
    host.put_file(
        &Text::from_str(alloc, "inputs")?,
        case.manifest.as_str().as_bytes(),
    )?;
    for (name, bytes) in &case.files {
        host.put_file(&Text::from_str(alloc, name.as_str())?, bytes.as_slice())?;
    }
    for k in 0..case.sources.len() {
        let name = source_name(alloc, k)?;
        host.put_file(&name, case.sources[k].as_str().as_bytes())?;
        words.push(name)?;
    }
    Ok(words)
}
