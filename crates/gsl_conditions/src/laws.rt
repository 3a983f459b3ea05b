//! Laws of the definitions: calls that do nothing, whose contracts are the laws.

ghost use Rattle.std.specs.Prelude.{◌≡◌, Some};
ghost use Rattle.gsl_macros.specs.Expanding.{Seen};
ghost use Rattle.gsl_conditions.specs.Values.{Value};
ghost use Rattle.gsl_conditions.specs.Reading.{read, start};
ghost use Rattle.gsl_conditions.specs.Grammar.{IsCondition};

/// What is read of tokens is the condition that the grammar has there, of this value, and each such condition is read. So tokens are at
/// most one condition.
pub fn conditions_are_read()
    ensures read { (tokens : Seen) (value : Value) → read start tokens ≡ Some value → IsCondition tokens value }
    ensures all { (tokens : Seen) (value : Value) → IsCondition tokens value → read start tokens ≡ Some value }
{}
