//! Values and pointers that ids stand for.

ghost use Rattle.std.specs.Prelude.{◌≡◌, IfOk};
ghost use Rattle.gsl_enact_memory.specs.Reaching.{pointer_if_seen};
ghost use Rattle.gsl_enact_state.specs.Seen as seen;

use crate::state::Held;
use gsl_base::{List, Memory};
use gsl_compute::copy_value;
use gsl_enact_memory::Pointer;
use gsl_values::Value;
use std::alloc::Global;

/// A copy of a pointer.
pub fn copy_pointer(alloc: Global, pointer: &Pointer) -> Result<Pointer, Memory>
    ensures { IfOk result (λ p. p ≡ pointer.now) }
{
    match pointer {
        Pointer::InBlock {
            variable,
            offset,
            pointee,
        } => Ok(Pointer::InBlock {
            variable: *variable,
            offset: *offset,
            pointee: *pointee,
        }),
        Pointer::InVariable { number, path } => {
            let path = List::from_slice(alloc, path.as_slice())?;
            Ok(Pointer::InVariable {
                number: *number,
                path,
            })
        }
    }
}

/// A copy of what an id stands for.
pub fn copy_held(alloc: Global, held: &Held) -> Result<Held, Memory>
    ensures { IfOk result (λ h. h ≡ held.now) }
{
    match held {
        Held::Whole(value) => {
            let value = copy_value(alloc, value)?;
            Ok(Held::Whole(value))
        }
        Held::Points(to) => {
            let to = copy_pointer(alloc, to)?;
            Ok(Held::Points(to))
        }
    }
}

/// The value that something is, if it is one.
pub fn value_of(held: Option<Held>) -> Option<Value>
    ensures { result ≡ seen.whole_in (seen.held_if_seen held) }
{
    match held {
        None => None,
        Some(Held::Whole(value)) => Some(value),
        Some(Held::Points(_)) => None,
    }
}

/// The pointer that something is, if it is one.
pub fn pointer_of(held: Option<Held>) -> Option<Pointer>
    ensures { pointer_if_seen result ≡ seen.pointer_in (seen.held_if_seen held) }
{
    match held {
        None => None,
        Some(Held::Whole(_)) => None,
        Some(Held::Points(to)) => Some(to),
    }
}
