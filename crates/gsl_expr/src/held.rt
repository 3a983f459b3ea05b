//! What is held while something else is read or made.

ghost use Rattle.std.specs.Prelude.{◌≡◌};
ghost use Rattle.gsl_expr.specs.Held as spec;

/// What came, with what was held meanwhile, which is given up where nothing came.
pub fn with<A, B: Drop, E>(came: Result<A, E>, held: B) -> Result<(A, B), E>
    ensures { spec.Held came held result }
{
    match came {
        Ok(found) => Ok((found, held)),
        Err(stop) => {
            drop(held);
            Err(stop)
        }
    }
}
