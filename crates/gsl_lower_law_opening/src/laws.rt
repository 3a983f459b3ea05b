//! Laws of the definitions: calls that do nothing, whose contracts are the laws.

ghost use Rattle.std.specs.Prelude.{◌≡◌, ℕ, List};
ghost use Rattle.gsl_tree.specs.declared.unit.Function.{Function};
ghost use Rattle.gsl_tree.specs.declared.unit.Prototype.{Prototype};
ghost use Rattle.gsl_lower_holders.specs.Flow.{Flow, Gives};
ghost use Rattle.gsl_lower_needs.specs.declared.need.Need.{Need};
ghost use Rattle.gsl_lower_flow.specs.Functions.{begun, holder_types};
ghost use Rattle.gsl_lower_law_opening.specs.Opening.{HasOpened};

/// A function opens with its first instruction, a pointer for each parameter, a label, and a variable for each local variable and for each holder that it asks for, all under new ids; each local variable begins as the constant
/// of null of its type.
pub fn functions_open()
    ensures { (id : ℕ) (head : Prototype) (f : Function) (asked : List Need) (b later : Flow) → begun id head f asked b ≡ Gives tt later → HasOpened id head f.locals (holder_types asked) b later }
{}
