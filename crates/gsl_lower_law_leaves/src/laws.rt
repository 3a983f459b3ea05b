//! Laws of the definitions: calls that do nothing, whose contracts are the laws.

ghost use Rattle.std.specs.Prelude.{◌≡◌, ℕ, true, length, List};
ghost use Rattle.gsl_base.specs.declared.input.Input.{Input};
ghost use Rattle.gsl_types.specs.Known.{AreStructs, IsSound};
ghost use Rattle.gsl_types.specs.declared.ty.StructType.{StructType};
ghost use Rattle.gsl_types.specs.declared.ty.Ty.{Ty};
ghost use Rattle.gsl_words.specs.declared.module.Module.{Module};
ghost use Rattle.gsl_values.specs.declared.op.BinaryOp.{BinaryOp};
ghost use Rattle.gsl_values.specs.declared.value.Value.{Value};
ghost use Rattle.gsl_values.specs.declared.value.Value.TheVariants.{Word};
ghost use Rattle.gsl_tree.specs.Shapes.{is_equality};
ghost use Rattle.gsl_tree.specs.Values.{is_value_of, same_value};
ghost use Rattle.gsl_machine.specs.State.{State};
ghost use Rattle.gsl_spv.specs.Sections.{Sections};
ghost use Rattle.gsl_lower_leaves.specs.Copies.{compared_whole};
ghost use Rattle.gsl_lower_leaves.specs.Leaves.{leaves_of};
ghost use Rattle.gsl_lower_leaves.specs.declared.leaf.Leaf.{Leaf};
ghost use Rattle.gsl_lower_law_places.specs.OfLaw.{Computes};
ghost use Rattle.gsl_lower_law_places.specs.OfLaw.{Stands};
ghost use Rattle.gsl_lower_law_leaves.specs.Equal.{HasLeaves, same_leaves, told};

/// Whether two values are equal in all of these leaves, or unequal in one of them. No choice is drawn.
pub fn equality_computes()
    ensures { (m : Module) (input : Input) (whole : Sections) (which : BinaryOp) (a b : ℕ) (leaves : List Leaf) (v w : Value) (state : State) (before : Sections) → is_equality which ≡ true → Stands state.ids a v → Stands state.ids b w → HasLeaves v leaves → HasLeaves w leaves → Computes m input whole (Word (told which (same_leaves v w leaves)), state.choices) state before (compared_whole which a b leaves) }
{}

/// Values of a type have all of its leaves, and are equal where these are.
pub fn values_are_their_leaves()
    ensures has { (structs : List StructType) (ty : Ty) (v : Value) → AreStructs structs → IsSound (length structs) ty → is_value_of structs ty v ≡ true → HasLeaves v (leaves_of structs ty) }
    ensures same { (structs : List StructType) (ty : Ty) (v w : Value) → AreStructs structs → IsSound (length structs) ty → is_value_of structs ty v ≡ true → is_value_of structs ty w ≡ true → same_value v w ≡ same_leaves v w (leaves_of structs ty) }
{}
