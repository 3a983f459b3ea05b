//! Reading the cases of a file.

use gsl_base::{Memory, Stage};
use std::alloc::Global;

/// A case: its title, its stage and its source.
#[derive(Drop)]
pub struct Case {
    pub title: String,
    pub stage: Stage,
    pub source: String,
}

/// The stage of a line that begins a case, by its first word.
fn stage_of(word: &str) -> Option<Stage> {
    match word {
        "vert" => Some(Stage::Vertex),
        "frag" => Some(Stage::Fragment),
        "comp" => Some(Stage::Compute),
        _ => None,
    }
}

fn new_case(alloc: Global, stage: Stage, title: &str) -> Result<Case, Memory> {
    Ok(Case {
        title: String::from_str(alloc, title)?,
        stage,
        source: String::new(alloc),
    })
}

/// Puts a line behind the source of the case that was begun last.
fn put_line(cases: &mut Vec<Case>, line: &str) -> Result<(), Memory> {
    match cases.last_mut() {
        Some(case) => {
            case.source.push_str(line)?;
            case.source.push_str("\n")?;
            Ok(())
        }
        None => Ok(()),
    }
}

/// The cases of a text. A line that begins with a stage begins one, with its title; each line behind `| ` is one of its source.
pub fn read_cases(alloc: Global, text: &str) -> Result<Vec<Case>, Memory> {
    let mut cases = Vec::new(alloc);
    for line in text.lines() {
        let (word, rest) = line.split_once(' ').unwrap_or((line, ""));
        match stage_of(word) {
            Some(stage) => cases.push(new_case(alloc, stage, rest)?)?,
            None => {
                if word == "|" {
                    put_line(&mut cases, rest)?;
                }
            }
        }
    }
    Ok(cases)
}
