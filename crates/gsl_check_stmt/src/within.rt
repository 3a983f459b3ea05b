//! What may stand where.

ghost use Rattle.std.specs.Prelude.{◌≡◌};
ghost use Rattle.gsl_check_stmt.specs.Statements as spec;

/// What may stand where a statement stands.
#[derive(Clone, Copy, Debug, PartialEq, Eq)]
pub struct Within {
    /// Whether `break` may.
    pub breaks: bool,
    /// Whether `continue` may.
    pub continues: bool,
    /// Whether a scope is open already for what a group declares.
    pub shared: bool,
}

/// Among other statements.
pub fn in_row(within: Within) -> Within
    ensures { result ≡ spec.in_row within }
{
    Within {
        breaks: within.breaks,
        continues: within.continues,
        shared: false,
    }
}

/// As a part of another statement, in a scope that is open for it.
pub fn in_part(within: Within) -> Within
    ensures { result ≡ spec.in_part within }
{
    Within {
        breaks: within.breaks,
        continues: within.continues,
        shared: true,
    }
}

pub fn in_loop() -> Within
    ensures { result ≡ spec.in_loop }
{
    Within {
        breaks: true,
        continues: true,
        shared: true,
    }
}

pub fn in_switch(within: Within) -> Within
    ensures { result ≡ spec.in_switch within }
{
    Within {
        breaks: true,
        continues: within.continues,
        shared: false,
    }
}
