use gsl_base::{Memory, Stage, Text, Words};
use gsl_plan::{Command, plan};
use gsl_words::Target;
use std::alloc::Global;
use std::test::*;

/// The words of a line, without the program's own name.
fn words_of(alloc: Global, line: &str) -> Result<Words, Memory> {
    let mut words = Words::new(alloc);
    words.push(Text::from_str(alloc, "glsl")?)?;
    for word in line.split(' ') {
        words.push(Text::from_str(alloc, word)?)?;
    }
    Ok(words)
}

/// The command with its files, or `usage`.
fn shown(alloc: Global, line: &str) -> Result<String, Memory> {
    let words = words_of(alloc, line)?;
    let command = plan(alloc, &words)?;
    told(alloc, command)
}

fn told(alloc: Global, command: Command) -> Result<String, Memory> {
    match command {
        Command::Usage(_text) => Ok(String::from_str(alloc, "usage")?),
        Command::Compile {
            target,
            stage,
            out,
            files,
        } => all(alloc, compiling(target, stage), &out, &files),
        Command::Disassemble { file, out } => joined(alloc, "dis", &file, &out),
        Command::Assemble { file, out } => joined(alloc, "asm", &file, &out),
        Command::Check { file } => joined(alloc, "check", &file, &Text::from_str(alloc, "alone")?),
        Command::Exec { file, inputs } => joined(alloc, "exec", &file, &inputs),
        Command::Run {
            stage,
            inputs,
            files,
        } => all(alloc, running(stage), &inputs, &files),
    }
}

fn compiling(target: Target, stage: Stage) -> &'static str {
    match (target, stage) {
        (Target::V10, Stage::Compute) => "compile comp",
        (Target::V10, Stage::Vertex) => "compile vert",
        (Target::V10, Stage::Fragment) => "compile frag",
        (Target::V13, Stage::Compute) => "compile 1.3 comp",
        (Target::V13, Stage::Vertex) => "compile 1.3 vert",
        (Target::V13, Stage::Fragment) => "compile 1.3 frag",
    }
}

fn running(stage: Stage) -> &'static str {
    match stage {
        Stage::Compute => "run comp",
        Stage::Vertex => "run vert",
        Stage::Fragment => "run frag",
    }
}

fn all(alloc: Global, name: &str, first: &Text, others: &Words) -> Result<String, Memory> {
    let mut text = String::from_str(alloc, name)?;
    text.push_str(" ")?;
    text.push_str(first.as_str())?;
    for k in 0..others.len() {
        text.push_str(" ")?;
        text.push_str(others[k].as_str())?;
    }
    Ok(text)
}

fn joined(alloc: Global, name: &str, first: &Text, second: &Text) -> Result<String, Memory> {
    let mut text = String::from_str(alloc, name)?;
    text.push_str(" ")?;
    text.push_str(first.as_str())?;
    text.push_str(" ")?;
    text.push_str(second.as_str())?;
    Ok(text)
}

/// Whether a line is shown as this text.
fn is(alloc: Global, line: &str, text: &str) -> Result<bool, Memory> {
    let shown = shown(alloc, line)?;
    Ok(shown.as_str() == text)
}

/// Lines, and the commands that they are.
const COMMANDS: &[(&str, &str)] = &[
    ("compile comp o.spv a.comp", "compile comp o.spv a.comp"),
    (
        "compile comp o.spv a.comp b.comp -",
        "compile comp o.spv a.comp b.comp -",
    ),
    ("compile vert o.spv a.vert", "compile vert o.spv a.vert"),
    ("compile frag o.spv a.frag", "compile frag o.spv a.frag"),
    ("dis m.spv o.txt", "dis m.spv o.txt"),
    ("asm m.txt -", "asm m.txt -"),
    ("check m.spv", "check m.spv alone"),
    ("exec m.spv i.txt", "exec m.spv i.txt"),
    (
        "run vert i.txt a.vert b.vert",
        "run vert i.txt a.vert b.vert",
    ),
];

#[test]
fn each_command_has_its_operands(rt: HostRuntime) -> Result<(), Fail> {
    for (line, text) in COMMANDS {
        assert!(rt; is(rt.alloc(), line, text)?);
    }
    Ok(())
}

/// Lines with options or `--`, and the commands that they are.
const DASHES: &[(&str, &str)] = &[
    ("compile -- comp -o -f", "compile comp -o -f"),
    (
        "compile --target 1.3 comp o.spv a.comp",
        "compile 1.3 comp o.spv a.comp",
    ),
    (
        "compile comp --target=1.3 o.spv a.comp",
        "compile 1.3 comp o.spv a.comp",
    ),
    (
        "compile comp o.spv a.comp --target 1.0",
        "compile comp o.spv a.comp",
    ),
    (
        "compile comp o.spv -- --target 1.3",
        "compile comp o.spv --target 1.3",
    ),
    ("compile comp o.spv -- -f", "compile comp o.spv -f"),
    ("dis -- -- o.txt", "dis -- o.txt"),
    ("asm m.txt o.spv --", "asm m.txt o.spv"),
];

#[test]
fn two_dashes_end_the_options(rt: HostRuntime) -> Result<(), Fail> {
    for (line, text) in DASHES {
        assert!(rt; is(rt.alloc(), line, text)?);
    }
    Ok(())
}

/// Lines that are no command.
const OTHERS: &[&str] = &[
    "compile geom o.spv a.geom",
    "compile comp o.spv",
    "compile comp -o a.comp",
    "compile comp o.spv a.comp -b b.comp",
    "compile --target 1.2 comp o.spv a.comp",
    "compile --target 1.3 --target 1.3 comp o.spv a.comp",
    "compile --target=1.3 comp o.spv a.comp --target=1.0",
    "compile comp o.spv a.comp --target",
    "compile --target= comp o.spv a.comp",
    "compile --targets 1.3 comp o.spv a.comp",
    "run --target 1.3 comp i a.comp",
    "check --target 1.3 a.spv",
    "dis m.spv",
    "dis m.spv o.txt more",
    "dis --help o.txt",
    "asm -x m.txt o.spv",
    "asm m.txt",
    "asm -é o.spv",
    "check",
    "check m.spv o.spv",
    "exec m.spv",
    "exec m.spv i.txt more",
    "run comp i.txt",
    "-- dis m.spv o.txt",
    "Dis m.spv o.txt",
    "help",
    "help dis",
    "--help",
];

#[test]
fn other_words_are_no_command(rt: HostRuntime) -> Result<(), Fail> {
    for line in OTHERS {
        assert!(rt; is(rt.alloc(), line, "usage")?);
    }
    Ok(())
}

/// Whether words are no command, and are refused with this text.
fn refuses(alloc: Global, line: &str, text: &[u8]) -> Result<bool, Memory> {
    let words = words_of(alloc, line)?;
    match plan(alloc, &words)? {
        Command::Usage(usage) => Ok(usage.as_slice() == text),
        _ => Ok(false),
    }
}

const REFUSALS: &[(&str, &[u8])] = &[
    ("dis m.spv", b"usage\n"),
    (
        "dis -x o.txt",
        b"error: unexpected argument '-x' found\n\n  tip: to pass '-x' as a value, use '-- -x'\n\n\
          Usage: gsl dis MODULE OUT\n\nFor more information, try '--help'.\n",
    ),
    ("asm --help", HELP_OF_ASM),
    ("help asm", HELP_OF_ASM),
];

const HELP_OF_ASM: &[u8] =
    b"Makes the module of a text\n\nUsage: gsl asm TEXT OUT\n\nOptions:\n  -h, --help  Print help\n";

#[test]
fn a_refusal_has_its_text(rt: HostRuntime) -> Result<(), Fail> {
    for (line, text) in REFUSALS {
        assert!(rt; refuses(rt.alloc(), line, text)?);
    }
    Ok(())
}
