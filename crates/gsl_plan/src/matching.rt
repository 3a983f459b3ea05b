//! The command line as a command of `clap`.

ghost use Rattle.std.specs.Prelude.{◌≡◌, ◌⊎◌, IfOk, IfErr, None, false};
ghost use Rattle.std.specs.List.{All};
ghost use Rattle.std.specs.Str.{IsUtf8};
ghost use Rattle.clap.specs.Walk.{rule_of, texts};
ghost use Rattle.clap.specs.Words.{app_of, kind_of};
ghost use Rattle.clap.specs.declared.builder.command.Command.TheViews.{out-Command};
ghost use Rattle.gsl_plan.specs.Found as spec;
ghost use Rattle.gsl_plan.specs.Found.{found_in, taken};

use clap::error::ErrorKind;
use clap::{Arg, ArgAction, ArgMatches, Command, Error};
use std::alloc::{AllocError, Global};

/// What `clap` finds in the words, of which the first is the program's own name.
pub(crate) fn matches_of<'a>(alloc: Global, words: &'a [&'a str]) -> Result<ArgMatches<'a>, Error>
    requires { All IsUtf8 (texts words.now) }
    ensures ok { IfOk result (λ m. found_in m ≡ taken (texts words.now)) }
    ensures err { IfErr result (λ e. (kind_of e ≡ ErrorKind.OutOfMemory) ⊎ (taken (texts words.now) ≡ None)) }
{
    grammar(alloc)?.try_get_matches_from(words)
}

/// The program with its commands.
fn grammar<'a>(alloc: Global) -> Result<Command<'a>, AllocError>
    ensures { IfOk result (λ c. app_of c ≡ spec.grammar) }
{
    let exec = operated(
        alloc,
        "exec",
        "Runs a module on the input of a manifest",
        "gsl exec MODULE INPUTS",
    )?;
    let run = operated(
        alloc,
        "run",
        "Compiles a shader and runs its module on the input of a manifest",
        "gsl run STAGE INPUTS FILE..",
    )?;
    judging(alloc)?.subcommand(exec)?.subcommand(run)
}

/// The program with the commands that run no module.
fn judging<'a>(alloc: Global) -> Result<Command<'a>, AllocError>
    ensures { IfOk result (λ c. app_of c ≡ spec.judging) }
{
    let check = operated(
        alloc,
        "check",
        "Tells whether a module is valid",
        "gsl check MODULE",
    )?;
    writing(alloc)?.subcommand(check)
}

/// The program with the commands that write a file.
fn writing<'a>(alloc: Global) -> Result<Command<'a>, AllocError>
    ensures { IfOk result (λ c. app_of c ≡ spec.writing) }
{
    let compile = aiming(alloc)?;
    let disassemble = operated(alloc, "dis", "Shows a module as text", "gsl dis MODULE OUT")?;
    let assemble = operated(
        alloc,
        "asm",
        "Makes the module of a text",
        "gsl asm TEXT OUT",
    )?;
    program(alloc)
        .subcommand(compile)?
        .subcommand(disassemble)?
        .subcommand(assemble)
}

/// The program, which takes one of its commands.
fn program<'a>(alloc: Global) -> Command<'a>
    ensures { app_of result ≡ spec.program }
{
    Command::new(alloc, "gsl").subcommand_required(true)
}

/// The command that takes a target beside its operands.
fn aiming<'a>(alloc: Global) -> Result<Command<'a>, AllocError>
    ensures app { IfOk result (λ c. app_of c ≡ spec.aiming) }
    ensures local { IfOk result (λ c. (out-Command c).has_globals ≡ false) }
{
    let target = Arg::new(alloc, "target")
        .long("target")
        .action(ArgAction::Set)
        .value_name("V")
        .help("The version of SPIR-V, 1.0 or 1.3, and 1.0 without the option");
    Command::new(alloc, "compile")
        .about("Compiles a shader to a module")
        .override_usage("gsl compile [--target V] STAGE OUT FILE..")
        .arg(target)?
        .arg(operands(alloc))
}

/// A command that takes operands alone, which its usage names.
fn operated<'a>(
    alloc: Global,
    name: &'a str,
    about: &'a str,
    usage: &'a str,
) -> Result<Command<'a>, AllocError>
    ensures app { IfOk result (λ c. app_of c ≡ spec.operated name.entry.now) }
    ensures local { IfOk result (λ c. (out-Command c).has_globals ≡ false) }
{
    Command::new(alloc, name)
        .about(about)
        .override_usage(usage)
        .arg(operands(alloc))
}

/// Operands, as many as there are.
fn operands<'a>(alloc: Global) -> Arg<'a>
    ensures rule { rule_of result ≡ spec.operands_rule }
    ensures local { result.global ≡ false }
{
    Arg::new(alloc, "operands")
        .action(ArgAction::Append)
        .hide(true)
}
