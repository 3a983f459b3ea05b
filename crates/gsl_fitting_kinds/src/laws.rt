//! Laws of the definitions: calls that do nothing, whose contracts are the laws.

ghost use Rattle.std.specs.Prelude.{◌≡◌, ◌<◌, ◌++◌, ◌||◌, ℕ, Bool, List, [], None, Some, false, slice_get, true};
ghost use Rattle.std.specs.List.{AllByRecursion};
ghost use Rattle.gsl_instr.specs.declared.enumerant.storage_class.TheConstants as storage_class;
ghost use Rattle.gsl_types.specs.declared.ty.Scalar.TheVariants.{Int};
ghost use Rattle.gsl_types.specs.declared.ty.StructType.{StructType};
ghost use Rattle.gsl_types.specs.declared.ty.Ty.{Ty};
ghost use Rattle.gsl_values.specs.declared.op.BinaryOp.{BinaryOp};
ghost use Rattle.gsl_tree.specs.Operations.{has_fixed_length};
ghost use Rattle.gsl_tree.specs.Shapes.{flag, shape_of};
ghost use Rattle.gsl_tree.specs.declared.expr.StageVar.{StageVar};
ghost use Rattle.gsl_valid.specs.LimitRules.{most_indexes};
ghost use Rattle.gsl_spv.specs.Sections.{Sections};
ghost use Rattle.gsl_lower_leaves.specs.Leaves.{leaves_of};
ghost use Rattle.gsl_lower_holders.specs.Flow.{Flow};
ghost use Rattle.gsl_lower_expr.specs.Parts as parts;
ghost use Rattle.gsl_lower_expr.specs.Parts.{Lower, block_length, counted, shape_or, stage_number, stage_value};
ghost use Rattle.gsl_fitting.specs.Fits.{Frame};
ghost use Rattle.gsl_fitting_types.specs.Making.{AreSorted};
ghost use Rattle.gsl_fitting_flow.specs.Flowing.{IsTypeFor, asked_if};
ghost use Rattle.gsl_fitting_leaves.specs.Wholes.{Equates};
ghost use Rattle.gsl_fitting_expr.specs.Evaluating.{Evaluates, IsPlain};
ghost use Rattle.gsl_fitting_reaching.specs.Reached.{IsVariable, May, Stands};
ghost use Rattle.gsl_fitting_reads.specs.Moving.{GivesLeaf};
ghost use Rattle.gsl_fitting_kinds.specs.Lengths.{HasLength};

/// A built-in variable.
pub fn stages_evaluate()
    ensures { (whole : Sections) (main : ℕ) (local_size : List ℕ) (rank : ℕ → ℕ) (f : Frame) → AreSorted whole → (s : Flow) (deep type : ℕ) (var : StageVar) (t : Ty) (may : May) (pointee room : ℕ) → IsPlain whole main local_size rank f (shape_or t) type → may.reads ≡ true → Stands whole main local_size rank f (Some storage_class.INPUT) (Some (shape_or t)) pointee → ((id : ℕ) → slice_get s.place.stage_vars (stage_number var) ≡ Some id → IsVariable whole main local_size rank f may storage_class.INPUT pointee room id) → Evaluates whole main local_size rank f s [] deep false type (stage_value var t) }
{}

/// `.length()`: a constant where the type tells it, and else that of an array of unknown length at the end of a block.
pub fn lengths_evaluate()
    ensures in_blocks { (whole : Sections) (main : ℕ) (local_size : List ℕ) (rank : ℕ → ℕ) (f : Frame) → AreSorted whole → (s : Flow) (deep type block number : ℕ) → IsPlain whole main local_size rank f (Int, 1) type → ((id : ℕ) → slice_get s.place.blocks block ≡ Some id → HasLength whole main local_size rank f number id) → Evaluates whole main local_size rank f s [] deep false type (block_length block number) }
    ensures counted { (whole : Sections) (main : ℕ) (local_size : List ℕ) (rank : ℕ → ℕ) (f : Frame) → AreSorted whole → (s : Flow) (deep type : ℕ) (a : Lower) → IsPlain whole main local_size rank f (Int, 1) type → (has_fixed_length a.ty ≡ false → Evaluates whole main local_size rank f s [] deep false type a.length) → Evaluates whole main local_size rank f s [] deep false type (counted a) }
{}

/// `==` and `!=` of arrays and structs, leaf by leaf.
pub fn equality_evaluates()
    ensures { (whole : Sections) (main : ℕ) (local_size : List ℕ) (rank : ℕ → ℕ) (f : Frame) → AreSorted whole → (s : Flow) (asks more : List ℕ) (deep room : ℕ) (one_splits : Bool) (type second_type other : ℕ) (structs : List StructType) (which : BinaryOp) (a b : Lower) → shape_of a.ty ≡ None → Equates which → room < most_indexes → IsTypeFor whole main local_size rank f s.place a.ty type → IsPlain whole main local_size rank f flag other → AllByRecursion (GivesLeaf whole main local_size rank f type room) (leaves_of structs a.ty) → AllByRecursion (GivesLeaf whole main local_size rank f second_type room) (leaves_of structs a.ty) → Evaluates whole main local_size rank f s asks deep one_splits type a.value → Evaluates whole main local_size rank f s more deep b.traits.splits second_type b.value → Evaluates whole main local_size rank f s (asks ++ (asked_if b.traits.splits type ++ more)) deep (one_splits || b.traits.splits) other (parts.binary structs which a b) }
{}
