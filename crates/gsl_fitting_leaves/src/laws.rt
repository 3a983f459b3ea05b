//! Laws of the definitions: calls that do nothing, whose contracts are the laws.

ghost use Rattle.std.specs.Prelude.{ℕ, List};
ghost use Rattle.gsl_values.specs.declared.op.BinaryOp.{BinaryOp};
ghost use Rattle.gsl_tree.specs.Shapes.{flag};
ghost use Rattle.gsl_spv.specs.Sections.{Sections};
ghost use Rattle.gsl_lower_leaves.specs.Copies.{compared_whole, read_whole, store_whole};
ghost use Rattle.gsl_lower_leaves.specs.declared.leaf.Leaf.{Leaf};
ghost use Rattle.gsl_lower_places.specs.declared.reached.Part.{Part};
ghost use Rattle.gsl_fitting.specs.Fits.{Frame};
ghost use Rattle.gsl_fitting_types.specs.Making.{AreSorted, Comes, GivesValue, Sorts};
ghost use Rattle.gsl_fitting_places.specs.Leading.{Nothing};
ghost use Rattle.gsl_fitting_flow.specs.Flowing.{IsHolder, IsOf};
ghost use Rattle.gsl_fitting_leaves.specs.Wholes.{EnterBlock, Equates, HaveLeaves, LeaveBlock};

/// A value in a block is read by way of a variable of its type, and a value is stored in a block.
pub fn copies_fit()
    ensures out_sorts { (block class : ℕ) (parts : List Part) (variable type : ℕ) (leaves : List Leaf) (s : Sections) → Sorts s (read_whole block class parts variable type leaves s) }
    ensures out_comes { (whole : Sections) (main : ℕ) (local_size : List ℕ) (rank : ℕ → ℕ) (f : Frame) → AreSorted whole → (given : List ℕ) (class block : ℕ) (parts : List Part) (variable type : ℕ) (leaves : List Leaf) (before : Sections) → LeaveBlock whole main local_size rank f given class block parts variable leaves → IsHolder whole main local_size rank f type variable → Comes whole main local_size rank f given (λ id now after. IsOf whole main local_size rank f now type id) before (read_whole block class parts variable type leaves before) }
    ensures in_sorts { (block class : ℕ) (parts : List Part) (value : ℕ) (leaves : List Leaf) (s : Sections) → Sorts s (store_whole block class parts value leaves s) }
    ensures in_comes { (whole : Sections) (main : ℕ) (local_size : List ℕ) (rank : ℕ → ℕ) (f : Frame) → AreSorted whole → (given : List ℕ) (class block : ℕ) (parts : List Part) (value : ℕ) (leaves : List Leaf) (before : Sections) → EnterBlock whole main local_size rank f given class block parts value leaves → Comes whole main local_size rank f given Nothing before (store_whole block class parts value leaves before) }
{}

/// Whether two whole values are equal, or unequal, is a truth value.
pub fn equality_fits()
    ensures sorts { (which : BinaryOp) (a b : ℕ) (leaves : List Leaf) (s : Sections) → Sorts s (compared_whole which a b leaves s) }
    ensures comes { (whole : Sections) (main : ℕ) (local_size : List ℕ) (rank : ℕ → ℕ) (f : Frame) → AreSorted whole → (given : List ℕ) (which : BinaryOp) (a b : ℕ) (leaves : List Leaf) (before : Sections) → Equates which → HaveLeaves whole main local_size rank f given a b leaves → Comes whole main local_size rank f given (GivesValue whole main local_size rank f flag) before (compared_whole which a b leaves before) }
{}
