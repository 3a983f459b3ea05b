//! Modules as text and as bytes.

ghost use Rattle.gsl_words.specs.Instructions.{HasFile};

use crate::running::{dump, run_line, stream};
use gsl_asm::{AsmFault, assemble, show};
use gsl_base::{Bytes, Memory, Text};
use gsl_host::MemHost;
use gsl_outline::{Done, Outline};
use gsl_words::{Module, WordFault, decode, encode};
use std::alloc::Global;

/// The most bytes of a text or a file that is looked at, and the most instructions.
const MAX: usize = 16_777_216;

/// Prints the words of the file of a text's module, and whether the module is shown as that text; or the line that is wrong.
pub fn assembled(alloc: Global, out: &mut Outline, text: &[u8]) -> Done {
    if text.len() > MAX {
        return Err(Memory);
    }
    match assemble(alloc, text) {
        Ok(module) => put_module(alloc, out, &module, text),
        Err(AsmFault::Line(line)) => wrong_line(out, line),
        Err(AsmFault::Memory) => Err(Memory),
    }
}

fn put_module(alloc: Global, out: &mut Outline, module: &Module, text: &[u8]) -> Done
    requires { HasFile «module».now }
{
    put_file(alloc, out, module)?;
    put_shown(alloc, out, module, text)
}

fn put_file(alloc: Global, out: &mut Outline, module: &Module) -> Done
    requires { HasFile «module».now }
{
    let file = file_of(alloc, module)?;
    dump(out, file.as_slice())
}

/// Tells whether the module is shown as this text, and whether what is shown is read back.
fn put_shown(alloc: Global, out: &mut Outline, module: &Module, text: &[u8]) -> Done
    requires { HasFile «module».now }
{
    let shown = shown(alloc, module)?;
    let back = reads_back(alloc, module, shown.as_slice());
    put_alike(out, shown.as_slice() == text, back)
}

fn put_alike(out: &mut Outline, alike: bool, back: Result<bool, Memory>) -> Done {
    out.put(if alike {
        "shown as it stands"
    } else {
        "shown otherwise"
    })?;
    out.put(if back? {
        ", read back\n"
    } else {
        ", NOT READ BACK\n"
    })
}

fn shown(alloc: Global, module: &Module) -> Result<Bytes, Memory>
    requires { HasFile «module».now }
{
    if module.instrs.len() > MAX {
        return Err(Memory);
    }
    show(alloc, module)
}

/// Whether the text is one of a module with the same file.
fn reads_back(alloc: Global, module: &Module, text: &[u8]) -> Result<bool, Memory>
    requires { HasFile «module».now }
{
    if text.len() > MAX {
        return Err(Memory);
    }
    match assemble(alloc, text) {
        Ok(again) => is_same(alloc, module, &again),
        Err(AsmFault::Line(_)) => Ok(false),
        Err(AsmFault::Memory) => Err(Memory),
    }
}

/// Whether two modules have the same file.
fn is_same(alloc: Global, module: &Module, again: &Module) -> Result<bool, Memory>
    requires first { HasFile «module».now }
    requires second { HasFile again.now }
{
    let file = file_of(alloc, module)?;
    has_file(alloc, again, file.as_slice())
}

fn has_file(alloc: Global, module: &Module, bytes: &[u8]) -> Result<bool, Memory>
    requires { HasFile «module».now }
{
    let file = file_of(alloc, module)?;
    Ok(file.as_slice() == bytes)
}

fn file_of(alloc: Global, module: &Module) -> Result<Bytes, Memory>
    requires { HasFile «module».now }
{
    let mut file = Bytes::new(alloc);
    encode(module, &mut file)?;
    Ok(file)
}

/// Prints the text that shows the module of a file, or what is wrong with its bytes.
pub fn decoded(alloc: Global, out: &mut Outline, bytes: &[u8]) -> Done {
    if bytes.len() > MAX {
        return Err(Memory);
    }
    match decode(alloc, bytes) {
        Ok(module) => put_text(alloc, out, &module),
        Err(fault) => faulty(out, fault),
    }
}

fn put_text(alloc: Global, out: &mut Outline, module: &Module) -> Done
    requires { HasFile «module».now }
{
    let text = shown(alloc, module)?;
    put_lines(alloc, out, module, text.as_slice())
}

fn put_lines(alloc: Global, out: &mut Outline, module: &Module, text: &[u8]) -> Done
    requires { HasFile «module».now }
{
    stream(out, "shown | ", text)?;
    put_shown(alloc, out, module, text)
}

/// Prints what `check` tells of the file of a text's module, or the line that is wrong.
pub fn checked(alloc: Global, out: &mut Outline, text: &[u8]) -> Done {
    if text.len() > MAX {
        return Err(Memory);
    }
    match assemble(alloc, text) {
        Ok(module) => check_module(alloc, out, &module),
        Err(AsmFault::Line(line)) => wrong_line(out, line),
        Err(AsmFault::Memory) => Err(Memory),
    }
}

fn check_module(alloc: Global, out: &mut Outline, module: &Module) -> Done
    requires { HasFile «module».now }
{
    let file = file_of(alloc, module)?;
    put_checked(alloc, out, file.as_slice())
}

fn put_checked(alloc: Global, out: &mut Outline, file: &[u8]) -> Done {
    let mut host = MemHost::new(alloc, &[])?;
    check_over(alloc, out, file, &mut host)
}

fn check_over(alloc: Global, out: &mut Outline, file: &[u8], host: &mut MemHost) -> Done {
    set_module(alloc, host, file)?;
    let _status = run_line(alloc, "check module", host)?;
    stream(out, "out | ", host.out())?;
    stream(out, "err | ", host.err())
}

fn set_module(alloc: Global, host: &mut MemHost, file: &[u8]) -> Done {
    let name = Text::from_str(alloc, "module")?;
    host.put_file(&name, file)
}

fn wrong_line(out: &mut Outline, line: u32) -> Done {
    out.put("line ")?;
    out.number(u64::from(line))?;
    out.end_line()
}

fn faulty(out: &mut Outline, fault: WordFault) -> Done {
    match fault {
        WordFault::NotWhole => out.put("NotWhole\n"),
        WordFault::BigEndian => out.put("BigEndian\n"),
        WordFault::BadMagic => out.put("BadMagic\n"),
        WordFault::BadHeader => out.put("BadHeader\n"),
        WordFault::UnknownOpcode(place) => placed(out, "UnknownOpcode ", place),
        WordFault::BadCount(place) => placed(out, "BadCount ", place),
        WordFault::BadString(place) => placed(out, "BadString ", place),
        WordFault::Memory => Err(Memory),
    }
}

fn placed(out: &mut Outline, name: &str, place: u32) -> Done {
    out.put(name)?;
    out.number(u64::from(place))?;
    out.end_line()
}
