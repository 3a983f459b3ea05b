//! `#line`.

ghost use Rattle.std.specs.Prelude.{◌≡◌, map};
ghost use Rattle.gsl_base.specs.Checked.{Gives};
ghost use Rattle.gsl_macros.specs.Steps as steps;
ghost use Rattle.gsl_pp.specs.Directives as spec;

use crate::state::State;
use gsl_base::{Code, Place, Raw, Refusal};
use gsl_conditions::literal;
use gsl_macros::{Hid, MAX_DEPTH, Shift, Stream, Unread, all, fault};
use std::alloc::Global;

/// The physical line of the last token of a line.
fn last_line(line: u32, raws: &[Raw]) -> u32
    ensures { result ≡ spec.last_line line raws.now }
{
    let mut last = line;
    let mut rest = raws;
    while let [raw, more @ ..] = rest {
        last = raw.place.line;
        rest = more;
    }
    last
}

fn line_by(place: Place, after: u32, number: Option<u32>, file: u32) -> Result<Shift, Refusal>
    ensures { Gives result (spec.line_by place after number file) }
{
    match number {
        Some(number) => Ok(Shift {
            after,
            number,
            file,
        }),
        None => Err(fault(place, Code::E0201)),
    }
}

fn line_and_file(
    place: Place,
    after: u32,
    number: Option<u32>,
    file: Option<u32>,
) -> Result<Shift, Refusal>
    ensures { Gives result (spec.line_and_file place after number file) }
{
    match file {
        Some(file) => line_by(place, after, number, file),
        None => Err(fault(place, Code::E0201)),
    }
}

/// What one number says, or two.
fn line_of(
    alloc: Global,
    place: Place,
    after: u32,
    file: u32,
    tokens: &[Hid],
) -> Result<Shift, Refusal>
    ensures { Gives result (spec.line_of place after file tokens.now) }
{
    match tokens {
        [number] => {
            let number = literal(alloc, number.place, &number.spelled)?;
            line_by(place, after, number, file)
        }
        [number, file] => {
            let number = literal(alloc, number.place, &number.spelled)?;
            let file = literal(alloc, file.place, &file.spelled)?;
            line_and_file(place, after, number, file)
        }
        _ => Err(fault(place, Code::E0201)),
    }
}

/// What `#line` says; this stands behind the word.
pub(crate) fn line(
    alloc: Global,
    state: &mut State,
    place: Place,
    raws: &[Raw],
) -> Result<(), Refusal>
    ensures { steps.Leaves result (λ _. state.new) (spec.line state.old place raws.now) }
{
    let mut stream = Stream::new(alloc, Unread::copy_of(alloc, raws)?);
    let tokens = all(
        alloc,
        &state.macros,
        MAX_DEPTH,
        &mut stream,
        &mut state.left,
    )?;
    let after = last_line(place.line, raws);
    let shift = line_of(
        alloc,
        place,
        after,
        state.macros.shift.file,
        tokens.as_slice(),
    )?;
    state.macros.shift = shift;
    Ok(())
}
