//! Laws of the definitions: calls that do nothing, whose contracts are the laws.

ghost use Rattle.gsl_blocks.specs.Correct.{Decides};

/// What is read of blocks whose labels differ is how many of their constructs stand within each other, if
/// they are in order.
pub fn blocks_are_read()
    ensures { Decides }
{}
