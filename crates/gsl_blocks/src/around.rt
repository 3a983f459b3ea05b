//! What is around a run of blocks.

ghost use Rattle.std.specs.Prelude.{◌≡◌, ◌+◌, ◌^◌, ◌<◌};
ghost use Rattle.gsl_blocks.specs.Around as spec;

/// What is around a run: where it leads, its exits, and what its blocks may do.
#[derive(Clone, Copy)]
pub struct Around {
    pub follow: Option<u32>,
    pub loop_merge: Option<u32>,
    pub loop_continue: Option<u32>,
    /// The merge of the switch around, where no loop is nearer.
    pub switch_merge: Option<u32>,
    /// The merge of the loop whose continue part the run is.
    pub back: Option<u32>,
    /// Whether its blocks may return and kill.
    pub leaves: bool,
    /// How many constructs it stands in.
    pub depth: u32,
}

/// A run that is due.
#[derive(Clone, Copy)]
pub struct Due {
    pub label: u32,
    pub around: Around,
}

/// Around the blocks of a function.
pub(crate) const OUTSIDE: Around = Around {
    follow: None,
    loop_merge: None,
    loop_continue: None,
    switch_merge: None,
    back: None,
    leaves: true,
    depth: 0,
};

/// Whether an id is there and is this label.
fn is_id(id: Option<u32>, label: u32) -> bool
    ensures { result ≡ spec.is_id id label }
{
    match id {
        None => false,
        Some(id) => id == label,
    }
}

/// Whether a label is an exit.
fn is_exit(around: Around, label: u32) -> bool
    ensures { result ≡ spec.is_exit around label }
{
    is_id(around.loop_merge, label)
        || is_id(around.loop_continue, label)
        || is_id(around.switch_merge, label)
}

/// Whether a run may end with a branch to a label.
pub(crate) fn may_end(around: Around, label: u32) -> bool
    ensures { result ≡ spec.may_end around label }
{
    is_id(around.follow, label) || is_exit(around, label)
}

/// Whether a run may end with a branch to either of two labels.
pub(crate) fn may_turn(around: Around, on_true: u32, on_false: u32) -> bool
    ensures { result ≡ spec.may_turn around on_true on_false }
{
    (is_id(around.follow, on_true) && is_id(around.back, on_false))
        || (is_id(around.follow, on_false) && is_id(around.back, on_true))
}

/// Whether an arm or target of the selection with a merge needs a run of its own.
pub(crate) fn needs_run(around: Around, merge: u32, label: u32) -> bool
    ensures { result ≡ spec.needs_run around merge label }
{
    !(label == merge || is_exit(around, label))
}

/// Around the arms of a selection.
pub(crate) fn in_arm(around: Around, merge: u32) -> Around
    requires { around.depth + 1 < 2 ^ 32 }
    ensures { result ≡ spec.in_arm around merge }
{
    Around {
        follow: Some(merge),
        back: None,
        depth: around.depth + 1,
        ..around
    }
}

/// Around a target of a switch, before the next one.
pub(crate) fn in_case(around: Around, merge: u32, next: u32) -> Around
    requires { around.depth + 1 < 2 ^ 32 }
    ensures { result ≡ spec.in_case around merge next }
{
    Around {
        follow: Some(next),
        switch_merge: Some(merge),
        back: None,
        depth: around.depth + 1,
        ..around
    }
}

/// Around the body of a loop.
pub(crate) fn in_body(around: Around, merge: u32, continue_target: u32) -> Around
    requires { around.depth + 1 < 2 ^ 32 }
    ensures { result ≡ spec.in_body around merge continue_target }
{
    Around {
        follow: Some(continue_target),
        loop_merge: Some(merge),
        loop_continue: Some(continue_target),
        switch_merge: None,
        back: None,
        leaves: around.leaves,
        depth: around.depth + 1,
    }
}

/// Around the continue part of a loop.
pub(crate) fn in_continue(around: Around, label: u32, merge: u32) -> Around
    requires { around.depth + 1 < 2 ^ 32 }
    ensures { result ≡ spec.in_continue around label merge }
{
    Around {
        follow: Some(label),
        loop_merge: None,
        loop_continue: None,
        switch_merge: None,
        back: Some(merge),
        leaves: false,
        depth: around.depth + 1,
    }
}
