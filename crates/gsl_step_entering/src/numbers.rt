//! Where functions begin, and what they take.

ghost use Rattle.std.specs.Prelude.{◌≡◌, ◌^◌, ◌<◌, length};
ghost use Rattle.gsl_frames.specs.Frames.{frame, told_taken};
ghost use Rattle.gsl_machine.specs.Functions.{from_first_label};
ghost use Rattle.gsl_positions.specs.Positions.{left};

use gsl_frames::{Frames, Taken};
use gsl_ids::Definitions;
use gsl_positions::first_label;

/// What a function takes whose body begins at the instruction of a number.
pub(crate) fn frame_at(frames: &Frames<'_>, body: u32) -> Taken
    ensures { length frames.now.instrs < 2 ^ 32 → result ≡ told_taken (frame frames.now (left frames.now body)) }
{
    if frames.leaves().definitions().module().instrs.len() < 4_294_967_296 {
        frames.frame(body)
    } else {
        Taken {
            parameters: 0,
            top: 0,
            most: 0,
            variables: 0,
        }
    }
}

/// The first label of a function whose body begins at the instruction of a number.
pub(crate) fn first_at(definitions: &Definitions<'_>, body: u32) -> u32
    ensures { length definitions.now.instrs < 2 ^ 32 → from_first_label (left definitions.now body) ≡ left definitions.now result }
{
    let of = definitions.module();
    if of.instrs.len() < 4_294_967_296 {
        first_label(of, body)
    } else {
        0
    }
}
