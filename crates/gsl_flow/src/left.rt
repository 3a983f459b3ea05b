//! How statements and turns of loops are left.

ghost use Rattle.std.specs.Prelude.{◌≡◌};
ghost use Rattle.gsl_flow.specs.Flows.{behind_switch as behind_switch_of};

use gsl_values::Value;

/// How a statement was left.
#[derive(Drop)]
pub enum Left {
    Normal,
    Broke,
    Continued,
    Returned(Value),
}

/// Whether a loop goes on behind a turn, or how it was left.
#[derive(Drop)]
pub(crate) enum Turn {
    Again,
    Over(Left),
}

/// What a `switch` is left by, where an arm of it was left so: `break` leaves the `switch`.
pub(crate) fn behind_switch(left: Left) -> Left
    ensures { result ≡ behind_switch_of left }
{
    match left {
        Left::Broke => Left::Normal,
        other => other,
    }
}
