//! Laws of the definitions: calls that do nothing, whose contracts are the laws.

ghost use Rattle.std.specs.Prelude.{◌≡◌, Bool, List, ℕ, length};
ghost use Rattle.gsl_tree.specs.Operations.{binary_words};
ghost use Rattle.gsl_values.specs.Vectors.{binary_each};
ghost use Rattle.gsl_values.specs.declared.op.BinaryOp.{BinaryOp};

/// Of operands with as many components none serves for several: an operator takes them component by component.
pub fn operands_of_one_size()
    ensures { (op : BinaryOp) (signed : Bool) (xs ys choices : List ℕ) → length xs ≡ length ys → binary_words op signed xs ys choices ≡ binary_each op signed xs ys choices }
{}
