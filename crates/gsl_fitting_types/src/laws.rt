//! Laws of the definitions: calls that do nothing, whose contracts are the laws.

ghost use Rattle.std.specs.Prelude.{◌≡◌, ◌==◌, ℕ, List, Some, false, length, true};
ghost use Rattle.std.specs.List.{Contains};
ghost use Rattle.gsl_types.specs.declared.ty.Scalar.{Scalar};
ghost use Rattle.gsl_tree.specs.Shapes.{Shape};
ghost use Rattle.gsl_words.specs.declared.module.Instr.{Instr};
ghost use Rattle.gsl_valid.specs.EntryRules.{is_among};
ghost use Rattle.gsl_valid.specs.Ids.{defined};
ghost use Rattle.gsl_valid.specs.Ids as ids;
ghost use Rattle.gsl_valid.specs.Instruction.{read};
ghost use Rattle.gsl_valid.specs.Types.{defined_as, outside_of};
ghost use Rattle.gsl_spv.specs.Finished.{module_of};
ghost use Rattle.gsl_spv.specs.Growing.{Extends};
ghost use Rattle.gsl_spv.specs.Sections.{Sections};
ghost use Rattle.gsl_lower_values.specs.Building.{Built, Step, behind, giving};
ghost use Rattle.gsl_lower_values.specs.Types as types;
ghost use Rattle.gsl_fitting.specs.Fits.{Frame};
ghost use Rattle.gsl_fitting_types.specs.Making.{AreSorted, Comes, GivesValue, IsConstant, IsSized, IsTypeOf, IsValue, Sorts, Stands};

/// What sorted sections declare or put under an id is what the module has for it, and what they declare stands outside functions.
pub fn sections_tell()
    ensures declared { (whole : Sections) (main : ℕ) (local_size : List ℕ) → AreSorted whole → (i : Instr) (id : ℕ) → Contains whole.globals i → ids.result (read i) ≡ Some id → defined_as (module_of whole main local_size) id ≡ read i }
    ensures outside { (whole : Sections) (main : ℕ) (local_size : List ℕ) → AreSorted whole → (i : Instr) (id : ℕ) → Contains whole.globals i → ids.result (read i) ≡ Some id → defined (outside_of (module_of whole main local_size)) id ≡ true }
    ensures put { (whole : Sections) (main : ℕ) (local_size : List ℕ) → AreSorted whole → (i : Instr) (id : ℕ) → Contains whole.functions i → ids.result (read i) ≡ Some id → defined_as (module_of whole main local_size) id ≡ read i }
{}

/// One step behind another leaves sections sorted.
pub fn steps_follow()
    ensures { (before : Sections) (built : Built ℕ) (next : ℕ → Step ℕ) → Sorts before built → ((a : ℕ) (s : Sections) → Sorts s (next a s)) → Sorts before (behind built next) }
{}

/// An instruction that may stand gives a value of its type.
pub fn instructions_give()
    ensures { (whole : Sections) (main : ℕ) (local_size : List ℕ) (rank : ℕ → ℕ) (f : Frame) (given : List ℕ) (op : ℕ) (operands : List ℕ) (shape : Shape) (type : ℕ) (before : Sections) → AreSorted whole → IsTypeOf before shape type → (Extends before whole → Stands whole main local_size rank f given op operands type) → Comes whole main local_size rank f given (GivesValue whole main local_size rank f shape) before (giving op operands type before) }
{}

/// The types of scalars and vectors are declared once, as they may be.
pub fn types_fit()
    ensures sorts { (shape : Shape) (s : Sections) → Sorts s (types.type_of shape s) }
    ensures comes { (whole : Sections) (main : ℕ) (local_size : List ℕ) (rank : ℕ → ℕ) (f : Frame) → AreSorted whole → (given : List ℕ) (shape : Shape) (before : Sections) → IsSized shape → Comes whole main local_size rank f given (λ id now after. IsTypeOf after shape id) before (types.type_of shape before) }
    ensures one { (s : Sections) (shape : Shape) (a b : ℕ) → IsTypeOf s shape a → IsTypeOf s shape b → a ≡ b }
{}

/// So are their constants, which every block may use.
pub fn constants_fit()
    ensures scalar { (whole : Sections) (main : ℕ) (local_size : List ℕ) (rank : ℕ → ℕ) (f : Frame) → AreSorted whole → (given : List ℕ) (s : Scalar) (word : ℕ) (before : Sections) → Comes whole main local_size rank f given (λ id now after. IsConstant after (s, 1) id) before (types.scalar_constant s word before) }
    ensures filled { (whole : Sections) (main : ℕ) (local_size : List ℕ) (rank : ℕ → ℕ) (f : Frame) → AreSorted whole → (given : List ℕ) (shape : Shape) (word : ℕ) (before : Sections) → IsSized shape → Comes whole main local_size rank f given (λ id now after. IsConstant after shape id) before (types.filled_constant shape word before) }
    ensures vector { (whole : Sections) (main : ℕ) (local_size : List ℕ) (rank : ℕ → ℕ) (f : Frame) → AreSorted whole → (given : List ℕ) (shape : Shape) (words : List ℕ) (before : Sections) → IsSized shape → (shape.1 == 1) ≡ false → length words ≡ shape.1 → Comes whole main local_size rank f given (λ id now after. IsConstant after shape id) before (types.vector_constant shape words before) }
    ensures values { (whole : Sections) (main : ℕ) (local_size : List ℕ) (rank : ℕ → ℕ) (f : Frame) → AreSorted whole → (given : List ℕ) (shape : Shape) (id : ℕ) → IsConstant whole shape id → IsValue whole main local_size rank f given shape id }
{}
