//! Laws of the definitions: calls that do nothing, whose contracts are the laws.

ghost use Rattle.std.specs.Prelude.{◌≡◌, ◌<◌, ◌≤◌, ℕ, Bool, true, Option, Some, None, List, ◌∷◌, [], length, slice_get};
ghost use Rattle.gsl_base.specs.declared.input.Input.{Input};
ghost use Rattle.gsl_layout.specs.Layout.{Layout, Leaf};
ghost use Rattle.gsl_types.specs.Known.{AreStructs, IsSound};
ghost use Rattle.gsl_types.specs.declared.ty.Scalar.{Scalar};
ghost use Rattle.gsl_types.specs.declared.ty.StructType.{StructType};
ghost use Rattle.gsl_types.specs.declared.ty.Ty.{Ty};
ghost use Rattle.gsl_words.specs.declared.module.Module.{Module};
ghost use Rattle.gsl_values.specs.declared.value.Value.{Value};
ghost use Rattle.gsl_tree.specs.Expressions.{HasPartType, element_of};
ghost use Rattle.gsl_tree.specs.Laying.{layout_of};
ghost use Rattle.gsl_tree.specs.Shapes.{Shape, shape_of};
ghost use Rattle.gsl_tree.specs.declared.unit.Block.{Block};
ghost use Rattle.gsl_tree.specs.declared.unit.BlockMember.{BlockMember};
ghost use Rattle.gsl_typed_law.specs.Parts.{IsPart};
ghost use Rattle.gsl_views.specs.Paths.{Leads};
ghost use Rattle.gsl_views.specs.Viewed.{IsArray, elements};
ghost use Rattle.gsl_meaning.specs.Accesses.{told};
ghost use Rattle.gsl_meaning.specs.Blocks.{put_blocks};
ghost use Rattle.gsl_machine.specs.Memory.{bytes_of};
ghost use Rattle.gsl_machine.specs.State.{InBlock, State};
ghost use Rattle.gsl_owed.specs.Types.{lies};
ghost use Rattle.gsl_lower_law.specs.Operands.{converted_value};
ghost use Rattle.gsl_lower_law.specs.Values.{IsOf};
ghost use Rattle.gsl_lower_law_bytes.specs.OfLawPlaces.{picks_of};
ghost use Rattle.gsl_lower_law_bytes.specs.OfLawPlaces.{StraysFrom};
ghost use Rattle.gsl_lower_law_bytes.specs.OfLawPlaces.{IsVectorType};
ghost use Rattle.gsl_lower_law_members.specs.Parts.{IsRow, laid_as};
ghost use Rattle.gsl_lower_law_members.specs.Sizes.{size_of};

/// A block has as many bytes while a module runs as are given for it, whatever is put there.
pub fn blocks_keep_their_size()
    ensures { (m : Module) (input : Input) (structs : List StructType) (blocks : List Block) (vs : List Value) (state : State) (variable : ℕ) (bytes : List ℕ) → state.buffers ≡ put_blocks structs blocks vs input.buffers → bytes_of m input state variable ≡ Some bytes → length bytes ≡ size_of m input variable }
{}

/// Members of blocks and structs and elements of arrays lie where layouts have them, by the types that they have; what has a part of a number by its type is no array with fewer elements; a scalar or vector is a run.
pub fn parts_are_laid()
    ensures block { (structs : List StructType) (block : Block) (size number : ℕ) (one : BlockMember) → slice_get block.members number ≡ Some one → (offset : ℕ) × Leads size (layout_of structs block) 0 (number ∷ []) (laid_as block.std140 structs one.ty) offset }
    ensures member { (std140 : Bool) (structs : List StructType) (size at number : ℕ) (base t : Ty) → AreStructs structs → HasPartType structs base number t → (offset : ℕ) × Leads size (laid_as std140 structs base) at (number ∷ []) (laid_as std140 structs t) offset }
    ensures row { (std140 : Bool) (structs : List StructType) (base t : Ty) → element_of base ≡ Some t → shape_of base ≡ None → IsRow std140 structs base t (laid_as std140 structs base) }
    ensures element { (std140 : Bool) (structs : List StructType) (size at number : ℕ) (base t : Ty) (l : Layout) → IsRow std140 structs base t l → number < elements l at size → (offset : ℕ) × Leads size l at (number ∷ []) (laid_as std140 structs t) offset }
    ensures last { (std140 : Bool) (structs : List StructType) (size offset number : ℕ) (base t : Ty) → AreStructs structs → IsPart structs base number t → IsArray (laid_as std140 structs base) → elements (laid_as std140 structs base) offset size ≤ number → ⊥ }
    ensures shape { (std140 : Bool) (structs : List StructType) (t : Ty) (shape : Shape) → shape_of t ≡ Some shape → laid_as std140 structs t ≡ Leaf shape.1 }
{}

/// A type that lies as a run of several components is one of vectors; a word that is not below their count strays.
pub fn runs_are_vectors()
    ensures vector { (m : Module) (count type : ℕ) → 2 ≤ count → lies m (Leaf count) type ≡ true → (component : ℕ) × IsVectorType m type component count }
    ensures strays { (m : Module) (input : Input) (state : State) (variable offset count type word : ℕ) (bytes : List ℕ) → 2 ≤ count → lies m (Leaf count) type ≡ true → bytes_of m input state variable ≡ Some bytes → count ≤ word → StraysFrom m input state (InBlock variable offset type) (word ∷ []) }
{}

/// The value that the words of a scalar or vector tell is that with each word as one of its scalar type; and so where components are picked.
pub fn words_are_told()
    ensures whole { (structs : List StructType) (t : Ty) (shape : Shape) (s : Scalar) (v : Value) → IsSound (length structs) t → shape_of t ≡ Some shape → IsOf (s, shape.1) v → told structs t v ≡ converted_value shape.0 v }
    ensures picks { (structs : List StructType) (t : Ty) (shape : Shape) (v : Value) (by : Option ℕ) (positions : List ℕ) → IsSound (length structs) t → shape_of t ≡ Some shape → length positions ≡ shape.1 → told structs t (picks_of v by positions) ≡ picks_of (converted_value shape.0 v) by positions }
{}
