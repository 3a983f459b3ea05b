//! Says what a module does: `MODULE INPUTS` runs the module in the file MODULE on the input of the manifest INPUTS by the definition of `gsl_machine`,
//! and lists what it gave. `cases FILE..` runs the cases in files over hosts in memory, and prints what came of each; `docs/CASES.md` has
//! the form of a case.
#![tactic(auto)]

mod case;
mod command;
mod reading;
mod running;
mod stop;
mod texts;

use crate::command::enactor;
use crate::running::run_files;
use gsl_base::{Memory, Text, Words};
use gsl_host::FileHost;
use std::alloc::Global;
use std::env;
use std::process::ExitCode;

fn main(rt: HostRuntime) -> ExitCode {
    let alloc = rt.alloc();
    let Ok(given) = env::args(&rt) else {
        return ExitCode::from(3);
    };
    let mut words = Words::new(alloc);
    for word in given {
        if words.push(Text::from_string(word)).is_err() {
            return ExitCode::from(4);
        }
    }
    let mut host = FileHost::new(rt, alloc);
    ExitCode::from(match words.as_slice() {
        [_, first, names @ ..] if first.as_str() == "cases" => run_files(alloc, names, &mut host),
        _ => enactor(alloc, &words, &mut host),
    })
}
