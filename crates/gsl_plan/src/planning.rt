//! From words to a command.

ghost use Rattle.std.specs.Prelude.{◌≡◌, ◌≢◌, map, codes, IfOk};
ghost use Rattle.std.specs.List.{All};
ghost use Rattle.std.specs.Option.{option_and_then, option_map};
ghost use Rattle.std.specs.Str.{IsUtf8};
ghost use Rattle.clap.specs.Walk.{first_of, rows_of, texts};
ghost use Rattle.clap.specs.Words.{found_of, kind_of};
ghost use Rattle.gsl_plan.specs.Plan as spec;
ghost use Rattle.gsl_plan.specs.Plan.{plan_in, plan_of};
ghost use Rattle.gsl_plan.specs.Found.{found_in, operands_in};

use crate::command::Command;
use crate::matching::matches_of;
use clap::error::ErrorKind;
use clap::{ArgMatches, Error};
use gsl_base::{Bytes, Memory, Stage, Text, Words};
use gsl_words::Target;
use std::alloc::Global;

/// The most source files of a command.
pub const MAX_FILES: usize = 64;

/// The command that the words are, or why they are none. The first word is the program's own name.
pub fn plan(alloc: Global, words: &Words) -> Result<Command, Memory>
    ensures { IfOk result (λ command. plan_in command ≡ plan_of words.now) }
{
    let texts = texts_of(alloc, words.as_slice())?;
    match matches_of(alloc, texts.as_slice()) {
        Ok(matches) => command_in(alloc, &matches),
        Err(error) => refused(alloc, &error),
    }
}

/// The words as text.
fn texts_of<'a>(alloc: Global, words: &'a [Text]) -> Result<Vec<&'a str>, Memory>
    ensures same { IfOk result (λ v. texts v.items ≡ words.now) }
    ensures utf8 { IfOk result (λ v. All IsUtf8 (texts v.items)) }
{
    let mut texts = Vec::new(alloc);
    for word in words {
        texts.push(word.as_str())?;
    }
    Ok(texts)
}

/// The command that was found, with its arguments.
fn command_in(alloc: Global, matches: &ArgMatches<'_>) -> Result<Command, Memory>
    ensures { IfOk result (λ found. plan_in found ≡ option_and_then (λ p. spec.named p.0 p.1.0 p.1.1) (found_in matches.now)) }
{
    match matches.subcommand() {
        Some((name, found)) => command_for(alloc, name, found),
        None => usage(alloc),
    }
}

/// The command of this name with the arguments that were found.
fn command_for(alloc: Global, name: &str, found: &ArgMatches<'_>) -> Result<Command, Memory>
    ensures { IfOk result (λ command. plan_in command ≡ spec.named name.now (first_of (codes "target") (rows_of (found_of found.now))) (operands_in (rows_of (found_of found.now)))) }
{
    let value = found.get_str("target");
    match found.get_strs("operands") {
        Some(operands) => named(alloc, name, value, operands),
        None => named(alloc, name, value, &[]),
    }
}

/// The command of this name with the value of its `--target` and its operands.
fn named(
    alloc: Global,
    name: &str,
    value: Option<&str>,
    operands: &[&str],
) -> Result<Command, Memory>
    ensures { IfOk result (λ found. plan_in found ≡ spec.named name.now (option_map (λ s. s.now) value.entry) (texts operands.now)) }
{
    if name == "compile" {
        return compile_of(alloc, value, operands);
    }
    if name == "dis" {
        return disassemble_of(alloc, operands);
    }
    if name == "asm" {
        return assemble_of(alloc, operands);
    }
    if name == "check" {
        return check_of(alloc, operands);
    }
    if name == "exec" {
        return exec_of(alloc, operands);
    }
    if name == "run" {
        return run_of(alloc, operands);
    }
    usage(alloc)
}

fn compile_of(alloc: Global, value: Option<&str>, operands: &[&str]) -> Result<Command, Memory>
    ensures { IfOk result (λ found. plan_in found ≡ spec.compile_of (option_map (λ s. s.now) value.entry) (texts operands.now)) }
{
    match operands {
        [stage, out, files @ ..] => {
            compile_for(alloc, target_of(value), staged(stage, files), out, files)
        }
        _ => usage(alloc),
    }
}

fn compile_for(
    alloc: Global,
    target: Option<Target>,
    stage: Option<Stage>,
    out: &str,
    files: &[&str],
) -> Result<Command, Memory>
    ensures { IfOk result (λ found. plan_in found ≡ spec.compile_in target stage out.now (texts files.now)) }
{
    match (target, stage) {
        (Some(target), Some(stage)) => Ok(Command::Compile {
            target,
            stage,
            out: Text::from_str(alloc, out)?,
            files: names_of(alloc, files)?,
        }),
        _ => usage(alloc),
    }
}

/// The target that the value of `--target` names.
fn target_of(value: Option<&str>) -> Option<Target>
    ensures { result ≡ spec.target_of (option_map (λ s. s.now) value.entry) }
{
    match value {
        None => Some(Target::V10),
        Some(word) => known_target(word),
    }
}

fn known_target(word: &str) -> Option<Target>
    ensures { result ≡ spec.known_target word.now }
{
    if word == "1.0" {
        Some(Target::V10)
    } else if word == "1.3" {
        Some(Target::V13)
    } else {
        None
    }
}

fn run_of(alloc: Global, operands: &[&str]) -> Result<Command, Memory>
    ensures { IfOk result (λ found. plan_in found ≡ spec.run_of (texts operands.now)) }
{
    match operands {
        [stage, inputs, files @ ..] => run_for(alloc, stage, inputs, files),
        _ => usage(alloc),
    }
}

fn run_for(alloc: Global, stage: &str, inputs: &str, files: &[&str]) -> Result<Command, Memory>
    ensures { IfOk result (λ found. plan_in found ≡ spec.run_in (spec.staged stage.now (texts files.now)) inputs.now (texts files.now)) }
{
    match staged(stage, files) {
        Some(stage) => Ok(Command::Run {
            stage,
            inputs: Text::from_str(alloc, inputs)?,
            files: names_of(alloc, files)?,
        }),
        None => usage(alloc),
    }
}

/// The stage of a word, if there are as many files as there may be.
fn staged(stage: &str, files: &[&str]) -> Option<Stage>
    ensures { result ≡ spec.staged stage.now (texts files.now) }
{
    if are_files(files) {
        stage_of(stage)
    } else {
        None
    }
}

/// Whether there is one file, and not too many.
fn are_files(files: &[&str]) -> bool
    ensures { result ≡ spec.are_files (texts files.now) }
{
    !files.is_empty() && files.len() <= MAX_FILES
}

/// The names of files.
fn names_of(alloc: Global, files: &[&str]) -> Result<Words, Memory>
    ensures { IfOk result (λ names. names ≡ texts files.now) }
{
    let mut names = Words::new(alloc);
    for k in 0..files.len() {
        names.push(Text::from_str(alloc, files[k])?)?;
    }
    Ok(names)
}

/// The stage of a word.
fn stage_of(word: &str) -> Option<Stage>
    ensures { result ≡ spec.stage_of word.now }
{
    if word == "vert" {
        Some(Stage::Vertex)
    } else if word == "frag" {
        Some(Stage::Fragment)
    } else if word == "comp" {
        Some(Stage::Compute)
    } else {
        None
    }
}

fn disassemble_of(alloc: Global, operands: &[&str]) -> Result<Command, Memory>
    ensures { IfOk result (λ found. plan_in found ≡ spec.disassemble_of (texts operands.now)) }
{
    match operands {
        [file, out] => Ok(Command::Disassemble {
            file: Text::from_str(alloc, file)?,
            out: Text::from_str(alloc, out)?,
        }),
        _ => usage(alloc),
    }
}

fn assemble_of(alloc: Global, operands: &[&str]) -> Result<Command, Memory>
    ensures { IfOk result (λ found. plan_in found ≡ spec.assemble_of (texts operands.now)) }
{
    match operands {
        [file, out] => Ok(Command::Assemble {
            file: Text::from_str(alloc, file)?,
            out: Text::from_str(alloc, out)?,
        }),
        _ => usage(alloc),
    }
}

fn check_of(alloc: Global, operands: &[&str]) -> Result<Command, Memory>
    ensures { IfOk result (λ found. plan_in found ≡ spec.check_of (texts operands.now)) }
{
    match operands {
        [file] => Ok(Command::Check {
            file: Text::from_str(alloc, file)?,
        }),
        _ => usage(alloc),
    }
}

fn exec_of(alloc: Global, operands: &[&str]) -> Result<Command, Memory>
    ensures { IfOk result (λ found. plan_in found ≡ spec.exec_of (texts operands.now)) }
{
    match operands {
        [file, inputs] => Ok(Command::Exec {
            file: Text::from_str(alloc, file)?,
            inputs: Text::from_str(alloc, inputs)?,
        }),
        _ => usage(alloc),
    }
}

/// The words are no command.
fn usage(alloc: Global) -> Result<Command, Memory>
    ensures { IfOk result (λ found. plan_in found ≡ spec.no_plan) }
{
    Ok(Command::Usage(Bytes::from_slice(alloc, b"usage\n")?))
}

/// The words were refused, with the text that says why, unless memory was wanting.
fn refused(alloc: Global, error: &Error) -> Result<Command, Memory>
    ensures none { IfOk result (λ found. plan_in found ≡ spec.no_plan) }
    ensures cause { IfOk result (λ _. kind_of error.now ≢ ErrorKind.OutOfMemory) }
{
    if error.kind() == ErrorKind::OutOfMemory {
        return Err(Memory);
    }
    let text = format!(in alloc; "{error}")?;
    Ok(Command::Usage(Bytes::from_slice(alloc, text.as_str().as_bytes())?))
}
