//! The commands of the program.

use gsl_base::{Bytes, Stage, Text, Words};
use gsl_words::Target;

/// What the words of a command line ask for.
#[derive(Drop)]
pub enum Command {
    /// The words are no command. This text says how the program is called.
    Usage(Bytes),
    /// Compiles one source file or more, of which there are at most 64, to a module for the target.
    Compile {
        target: Target,
        stage: Stage,
        out: Text,
        files: Words,
    },
    /// Shows the module of a file as text.
    Disassemble {
        file: Text,
        out: Text,
    },
    /// Writes the module of a text.
    Assemble {
        file: Text,
        out: Text,
    },
    /// Judges a module.
    Check {
        file: Text,
    },
    /// Runs a module on the input of a manifest.
    Exec {
        file: Text,
        inputs: Text,
    },
    /// Compiles one source file or more, of which there are at most 64, and runs their module on the input of a manifest.
    Run {
        stage: Stage,
        inputs: Text,
        files: Words,
    },
}
