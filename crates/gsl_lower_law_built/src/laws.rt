//! Laws of the definitions: calls that do nothing, whose contracts are the laws.

ghost use Rattle.std.specs.Prelude.{◌≡◌, ◌≤◌, ◌⊎◌, ℕ, List, Some, false, replicate, slice_get};
ghost use Rattle.gsl_base.specs.declared.input.Input.{Input};
ghost use Rattle.gsl_types.specs.Known.{AreStructs};
ghost use Rattle.gsl_types.specs.declared.ty.Scalar.{Scalar};
ghost use Rattle.gsl_types.specs.declared.ty.StructType.{StructType};
ghost use Rattle.gsl_types.specs.declared.ty.Ty.{Ty};
ghost use Rattle.gsl_types.specs.declared.ty.Ty.TheVariants.{Array, One, Struct};
ghost use Rattle.gsl_words.specs.declared.module.Module.{Module};
ghost use Rattle.gsl_values.specs.declared.function.Builtin.{Builtin};
ghost use Rattle.gsl_tree.specs.Around.{Around};
ghost use Rattle.gsl_values.specs.declared.value.Value.{Value};
ghost use Rattle.gsl_tree.specs.Expressions.{boolean, member_types};
ghost use Rattle.gsl_tree.specs.Shapes.{Shape, of_shape};
ghost use Rattle.gsl_tree.specs.Values.{is_value_of};
ghost use Rattle.gsl_tree.specs.declared.program.Program.{Program};
ghost use Rattle.gsl_meaning.specs.Expressions.{Meant};
ghost use Rattle.gsl_meaning.specs.Running.{Run};
ghost use Rattle.gsl_spv.specs.Sections.{Sections};
ghost use Rattle.gsl_lower_expr.specs.Parts.{Lower, any_splits, called_of, constructed, picked_one, sequence};
ghost use Rattle.gsl_lower_follows.specs.Frames.{AreTyped, Frame};
ghost use Rattle.gsl_lower_follows.specs.Giving.{GivesValue};
ghost use Rattle.gsl_lower_law_expr.specs.Known.{AllGive, IsQuiet, choice_means};
ghost use Rattle.gsl_lower_law_built.specs.Arguments.{Answers, AreShaped, Composes, Constructs, EachGives, SameTypes, built_means, components, constructed_means, last_type, sequence_means, types_of};
ghost use Rattle.gsl_lower_law_built.specs.Places.{NoVector};

/// `,`: each part is done in its turn, one without a value too, and the last has the value.
pub fn sequence_gives()
    ensures { (m : Module) (input : Input) (whole : Sections) (f : Frame m input whole) (p : Program) (around : Around) (ty : Ty) (items : List Lower) (xs : List Meant) → EachGives (GivesValue m input whole f p around) items xs → last_type items ≡ Some ty → GivesValue m input whole f p around (any_splits items) ty (sequence 0 items) (sequence_means xs) }
{}

/// A built-in function on the values of expressions, each of which waits where a later one has blocks: a bit field draws, component by component, where the language leaves it open.
pub fn built_gives()
    ensures { (m : Module) (input : Input) (whole : Sections) (f : Frame m input whole) (p : Program) (around : Around) (which : Builtin) (args : List Lower) (xs : List Meant) (ty : Ty) → Answers p which args ty → SameTypes args xs → AllGive (GivesValue m input whole f p around) args xs → GivesValue m input whole f p around (any_splits args) ty (called_of which args) (built_means which xs) }
{}

/// A constructor of a scalar or vector on the values of expressions.
pub fn constructed_gives()
    ensures { (m : Module) (input : Input) (whole : Sections) (f : Frame m input whole) (p : Program) (around : Around) (args : List Lower) (xs : List Meant) (ty : Ty) → Constructs p args ty → AllGive (GivesValue m input whole f p around) args xs → GivesValue m input whole f p around (any_splits args) ty (constructed ty args) (constructed_means ty xs) }
{}

/// A constructor of an array or a struct on the values of expressions, where what stands for its type is no vector in the module.
pub fn composed_gives()
    ensures { (m : Module) (input : Input) (whole : Sections) (f : Frame m input whole) (p : Program) (around : Around) (args : List Lower) (xs : List Meant) (ty : Ty) → Composes p args ty → NoVector m ty f.place → AllGive (GivesValue m input whole f p around) args xs → GivesValue m input whole f p around (any_splits args) ty (constructed ty args) (constructed_means ty xs) }
{}

/// Scalars and vectors that have as many components, or one that fills all of them, are what the constructor of a scalar or vector takes.
pub fn shape_constructs()
    ensures { (p : Program) (args : List Lower) (shapes : List Shape) (shape : Shape) → AreStructs p.structs → AreShaped p args shapes → 1 ≤ shape.1 → (shape.1 ≤ components shapes) ⊎ (components shapes ≡ 1) → Constructs p args (of_shape shape) }
{}

/// Elements of the type that an array has are what its constructor takes.
pub fn array_composes()
    ensures { (p : Program) (args : List Lower) (element : Ty) (n : ℕ) → types_of args ≡ replicate n element → Composes p args (Array element n) }
{}

/// Members of the types that a struct has are what its constructor takes.
pub fn struct_composes()
    ensures { (p : Program) (args : List Lower) (number : ℕ) (struct : StructType) → AreStructs p.structs → slice_get p.structs number ≡ Some struct → types_of args ≡ member_types struct.members → Composes p args (Struct number) }
{}

/// `?:` of two scalars that may be evaluated whether they count or not: both are, and no block ends.
pub fn selected_gives()
    ensures { (m : Module) (input : Input) (whole : Sections) (f : Frame m input whole) (p : Program) (around : Around) (s : Scalar) (test a b : Lower) (c x y : Run Value) → test.ty ≡ boolean → a.ty ≡ One s → b.ty ≡ One s → a.traits.splits ≡ false → b.traits.splits ≡ false → IsQuiet (AreTyped m input whole f p around) (is_value_of p.structs (One s)) x → IsQuiet (AreTyped m input whole f p around) (is_value_of p.structs (One s)) y → GivesValue m input whole f p around test.traits.splits test.ty test.value c → GivesValue m input whole f p around a.traits.splits a.ty a.value x → GivesValue m input whole f p around b.traits.splits b.ty b.value y → GivesValue m input whole f p around test.traits.splits (One s) (picked_one (One s) test a b) (choice_means c x y) }
{}
