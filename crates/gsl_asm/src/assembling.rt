//! Reading a module from its text, line by line.

ghost use Rattle.std.specs.Prelude.{◌≡◌, ◌+◌, ◌<◌, ◌^◌, length, IfOk};
ghost use Rattle.gsl_text.specs.Lines.{lines_of};
ghost use Rattle.gsl_words.specs.Instructions.{HasFile};
ghost use Rattle.gsl_asm.specs.Reading as spec;
ghost use Rattle.gsl_asm.specs.Reading.{Gives};
ghost use Rattle.gsl_asm.specs.Heads.{HeadGives};
ghost use Rattle.gsl_asm.specs.Texts.{Answers};

use crate::fault::AsmFault;
use crate::head::line_head;
use crate::instruction::put_line;
use gsl_text::first_line;
use gsl_words::{Instrs, Module, Target};
use std::alloc::Global;

/// The module of a text, or the line where it is wrong: the first that no text has there, and line 1 where no line has a word.
pub fn assemble(alloc: Global, text: &[u8]) -> Result<Module, AsmFault>
    requires { length text.now < 2 ^ 32 }
    ensures text { Answers result text.now }
    ensures file { IfOk result HasFile }
{
    read_module(alloc, text)
}

/// Reads the lines of a text.
fn read_module(alloc: Global, text: &[u8]) -> Result<Module, AsmFault>
    requires { length text.now < 2 ^ 32 }
    ensures answer { Gives result (spec.module_from 1 (lines_of text.now)) }
    ensures file { IfOk result HasFile }
{
    let head = read_head(text)?;
    let instrs = read_body(alloc, head.target, head.rest, head.line)?;
    Ok(Module {
        version: head.target.version(),
        bound: head.bound,
        instrs,
    })
}

/// What the first line with a word says, its number, and what stands behind it.
#[derive(Drop)]
pub struct Head<'a> {
    pub target: Target,
    pub bound: u32,
    pub line: u32,
    pub rest: &'a [u8],
}

/// Reads to the first line with a word.
fn read_head(text: &[u8]) -> Result<Head<'_>, AsmFault>
    requires { length text.now < 2 ^ 32 }
    ensures { HeadGives result (length text.now) (spec.module_from 1 (lines_of text.now)) }
{
    let mut rest = text;
    let mut line = 0;
    while !rest.is_empty() {
        let (first, more) = first_line(rest);
        rest = more;
        line += 1;
        let Some(says) = line_head(first) else {
            return Err(AsmFault::Line(line));
        };
        if let Some((target, bound)) = says {
            return Ok(Head {
                target,
                bound,
                line,
                rest,
            });
        }
    }
    Err(AsmFault::Line(1))
}

/// Reads the instructions of the lines behind one.
fn read_body(alloc: Global, target: Target, text: &[u8], line: u32) -> Result<Instrs, AsmFault>
    requires { line + length text.now < 2 ^ 32 }
    ensures { Gives result (spec.body target (line + 1) (lines_of text.now)) }
{
    let mut instrs = Instrs::new(alloc);
    let mut rest = text;
    let mut number = line;
    while !rest.is_empty() {
        let (first, more) = first_line(rest);
        rest = more;
        number += 1;
        if !put_line(alloc, target, first, &mut instrs)? {
            return Err(AsmFault::Line(number));
        }
    }
    Ok(instrs)
}
