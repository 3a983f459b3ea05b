//! Laws of the definitions: calls that do nothing, whose contracts are the laws.

ghost use Rattle.std.specs.Prelude.{◌≡◌, ◌<◌, ◌≤◌, ◌++◌, ◌==◌, ℕ, true, false, length, map, replicate, List};
ghost use Rattle.std.specs.List.{AllByRecursion};
ghost use Rattle.gsl_base.specs.declared.input.Input.{Input};
ghost use Rattle.gsl_types.specs.declared.ty.Scalar.{Scalar};
ghost use Rattle.gsl_words.specs.declared.module.Module.{Module};
ghost use Rattle.gsl_values.specs.declared.op.UnaryOp.{UnaryOp};
ghost use Rattle.gsl_values.specs.declared.value.Value.{Value};
ghost use Rattle.gsl_values.specs.declared.value.Value.TheVariants.{Word, Many};
ghost use Rattle.gsl_tree.specs.Operations.{converted as converted_word, unary_value};
ghost use Rattle.gsl_tree.specs.Shapes.{Shape};
ghost use Rattle.gsl_tree.specs.Values.{of_components};
ghost use Rattle.gsl_valid.specs.Kinds.{shape_of};
ghost use Rattle.gsl_valid.specs.OperandRules.{is_vector};
ghost use Rattle.gsl_valid.specs.Placed.{Code};
ghost use Rattle.gsl_valid.specs.Types.{defined_as};
ghost use Rattle.gsl_machine.specs.State.{Ids, State};
ghost use Rattle.gsl_spv.specs.Sections.{Sections};
ghost use Rattle.gsl_lower_values.specs.Building.{Step};
ghost use Rattle.gsl_lower_values.specs.Constructors.{picked, replaced};
ghost use Rattle.gsl_lower_values.specs.Operators.{unary};
ghost use Rattle.gsl_lower_values.specs.Types.{filled_constant, scalar_constant, type_of, vector_constant};
ghost use Rattle.gsl_lower_values.specs.declared.operand.Operand.{Operand};
ghost use Rattle.gsl_lower_law.specs.Computing.{Computes, Does, Grows, followed};
ghost use Rattle.gsl_lower_law.specs.Operands.{picked_value, replaced_value};
ghost use Rattle.gsl_lower_law.specs.Stretches.{Leads};
ghost use Rattle.gsl_lower_law.specs.Values.{IsOf, Keeps, Stands};

/// Two stretches of instructions one behind the other are one.
pub fn stretches_join()
    ensures { (m : Module) (input : Input) (a b : Code) (before between after : State) → Leads m input a before between → Leads m input b between after → Leads m input (a ++ b) before after }
{}

/// Where each of two steps computes a value, the second from any state in which the first id stands for its value, so does the one behind the other.
pub fn steps_join()
    ensures { (m : Module) (input : Input) (whole : Sections) (v w : Value) (choices left : List ℕ) (state : State) (before : Sections) (first : Step ℕ) (next : ℕ → Step ℕ) → Computes m input whole (v, choices) state before first → ((id : ℕ) (between : Sections) → Grows between (next id between)) → ((id : ℕ) (between : Sections) (ids : Ids) → Stands ids id v → Keeps state.ids ids → Computes m input whole (w, left) (record state { ids = ids; choices = choices }) between (next id)) → Computes m input whole (w, left) state before (followed first next) }
{}

/// The type of a vector is a vector type in the module.
pub fn type_is()
    ensures { (m : Module) (input : Input) (whole : Sections) (shape : Shape) (state : State) (before : Sections) → (shape.1 == 1) ≡ false → Does m input whole (λ type ids. is_vector (shape_of (defined_as m type)) ≡ true) state.choices state before (type_of shape) }
{}

/// A constant's id stands for its value.
pub fn constants_stand()
    ensures scalar { (m : Module) (input : Input) (whole : Sections) (s : Scalar) (word : ℕ) (state : State) (before : Sections) → Computes m input whole (Word (converted_word s word), state.choices) state before (scalar_constant s word) }
    ensures filled { (m : Module) (input : Input) (whole : Sections) (shape : Shape) (word : ℕ) (state : State) (before : Sections) → Computes m input whole (of_components (replicate shape.1 (converted_word shape.0 word)), state.choices) state before (filled_constant shape word) }
    ensures vector { (m : Module) (input : Input) (whole : Sections) (shape : Shape) (words : List ℕ) (state : State) (before : Sections) → Computes m input whole (Many (map (λ word. Word (converted_word shape.0 word)) words), state.choices) state before (vector_constant shape words) }
{}

/// An operator on one value.
pub fn unary_computes()
    ensures { (m : Module) (input : Input) (whole : Sections) (which : UnaryOp) (a : Operand) (v : Value) (state : State) (before : Sections) → Stands state.ids a.id v → Computes m input whole (unary_value which v, state.choices) state before (unary which a) }
{}

/// The components that a swizzle picks, in its order.
pub fn picked_computes()
    ensures { (m : Module) (input : Input) (whole : Sections) (a : Operand) (v : Value) (positions : List ℕ) (state : State) (before : Sections) → IsOf a.shape v → 1 ≤ length positions → AllByRecursion (λ position. position < a.shape.1) positions → Stands state.ids a.id v → Computes m input whole (picked_value v positions, state.choices) state before (picked a positions) }
{}

/// A vector with other components at some positions.
pub fn replaced_computes()
    ensures { (m : Module) (input : Input) (whole : Sections) (a : Operand) (positions : List ℕ) (new : ℕ) (v w : Value) (state : State) (before : Sections) → IsOf a.shape v → IsOf (a.shape.0, length positions) w → length positions ≤ a.shape.1 → Stands state.ids a.id v → Stands state.ids new w → Computes m input whole (replaced_value v positions w, state.choices) state before (replaced a positions new) }
{}
